// The entries of probes::walk_probes.
ghost use Rattle.std.specs.Prelude.{◌≡◌};
ghost use Rattle.plan.specs.tiling.Plan.{listed};
ghost use Rattle.walk.specs.Lent.{scratch_tables, lent_plan, world_before, world_after};
ghost use Rattle.probes.specs.walk_probes.Probes.{plan_answer, still_of, progress_of};
ghost use Rattle.probes.specs.walk_probes.Probes.{ProbeReplay, ProbeReplayLent, ProbeWalk, ProbeWalkLent};

use plan::tiling::Block;
use predict::scratch::AngularScratch;
use probes::walk_probes::{PlanAnswer, StepAnswer};

#[unsafe(no_mangle)]
pub extern "C" fn salvrunde_probe_check_plan(
    width: u32,
    height: u32,
    ctu: u32,
    rows: &[u32],
    cols: &[u32],
    sides: &[u32],
    modes: &[u32],
) -> PlanAnswer
    ensures { result ≡ plan_answer width height ctu (lent_plan rows cols sides modes) }
{
    probes::walk_probes::salvrunde_probe_check_plan(width, height, ctu, rows, cols, sides, modes)
}

#[unsafe(no_mangle)]
pub extern "C" fn salvrunde_probe_walk(
    done: u32,
    bits: u32,
    width: u32,
    height: u32,
    ctu: u32,
    rows: &[u32],
    cols: &[u32],
    sides: &[u32],
    modes: &[u32],
    source: &[u16],
    work: &mut [u16],
    residuals: &mut [i32],
    refs: &mut [u16],
    indices: &mut [u32],
    fractions: &mut [u32],
    grant: u32,
) -> StepAnswer
    ensures { ProbeWalkLent (still_of bits width height ctu) (lent_plan rows cols sides modes) (progress_of done)
        grant source work residuals refs indices fractions result }
{
    probes::walk_probes::salvrunde_probe_walk(
        done, bits, width, height, ctu, rows, cols, sides, modes, source, work, residuals, refs,
        indices, fractions, grant,
    )
}

#[unsafe(no_mangle)]
pub extern "C" fn salvrunde_probe_replay(
    done: u32,
    bits: u32,
    width: u32,
    height: u32,
    ctu: u32,
    rows: &[u32],
    cols: &[u32],
    sides: &[u32],
    modes: &[u32],
    residuals: &[i32],
    plane: &mut [u16],
    refs: &mut [u16],
    indices: &mut [u32],
    fractions: &mut [u32],
    grant: u32,
) -> StepAnswer
    ensures { ProbeReplayLent (still_of bits width height ctu) (lent_plan rows cols sides modes) (progress_of done)
        grant residuals plane refs indices fractions result }
{
    probes::walk_probes::salvrunde_probe_replay(
        done, bits, width, height, ctu, rows, cols, sides, modes, residuals, plane, refs, indices,
        fractions, grant,
    )
}

#[unsafe(no_mangle)]
pub extern "C" fn salvrunde_probe_replay_records(
    done: u32,
    bits: u32,
    width: u32,
    height: u32,
    ctu: u32,
    plan: &[Block],
    residuals: &[i32],
    plane: &mut [u16],
    scratch: &mut AngularScratch,
    grant: u32,
) -> StepAnswer
    ensures { ProbeReplay (still_of bits width height ctu) (listed plan.now) scratch_tables
        (progress_of done) grant residuals.now plane.old plane.new result
        (scratch.new ≡ scratch.old) }
{
    probes::walk_probes::salvrunde_probe_replay_records(
        done, bits, width, height, ctu, plan, residuals, plane, scratch, grant,
    )
}

#[unsafe(no_mangle)]
pub extern "C" fn salvrunde_probe_walk_records(
    done: u32,
    bits: u32,
    width: u32,
    height: u32,
    ctu: u32,
    plan: &[Block],
    source: &[u16],
    work: &mut [u16],
    residuals: &mut [i32],
    scratch: &mut AngularScratch,
    grant: u32,
) -> StepAnswer
    ensures { ProbeWalk (still_of bits width height ctu) (listed plan.now) scratch_tables
        (progress_of done) grant source.now (world_before work residuals) (world_after work residuals) result
        (scratch.new ≡ scratch.old) }
{
    probes::walk_probes::salvrunde_probe_walk_records(
        done, bits, width, height, ctu, plan, source, work, residuals, scratch, grant,
    )
}
