// What intrawalk prints of its input (document 01, 'The program'): the whole text, from the bytes alone.
// Rests on the contracts of walk and replay, of the sums and of the lines.
#![tactic(auto)]

pub mod file;
mod sums;
mod text;

ghost use Rattle.std.specs.Prelude.{◌≡◌, ◌≤◌, [], length as count};
ghost use Rattle.plan.specs.tiling.Plan.{listed};
ghost use Rattle.walk.specs.Answers.{stepped_of};
ghost use Rattle.walk.specs.Lent.{scratch_tables, world, world_before, world_after};
ghost use Rattle.walk.specs.calls.Door.{replay_after};
ghost use Rattle.report.specs.Told.{held_job, lines, told, job_of, printed, report_of};
ghost use Rattle.report.specs.Laws.{Listed, WholeWalk};
ghost use Rattle.report.specs.Whole.{Blank, GoodFile};

use crate::file::Trailer;
use crate::text::Text;
use domain::refusal::Refusal;
use plan::tiling::{Block, Fault};
use predict::scratch::AngularScratch;
use walk::checks::Still;
use walk::{Advance, Progress, Rejected};

// The text and how many bytes it has.
#[derive(Clone, Debug, Drop, PartialEq, Eq)]
pub struct Printout {
    pub text: [u8; 65536],
    pub length: usize,
}

// A file's contents: the still, its plan and its source.
#[derive(Clone, Copy)]
struct Job<'a> {
    still: Still,
    plan: &'a [Block],
    source: &'a [u16],
}

// The lines of all blocks.
fn push_lines(text: &mut Text, plan: &[Block], residuals: &[i32])
    requires plan { Listed (listed plan.now) (count residuals.now) }
    requires empty { text.old.bytes ≡ [] }
    ensures bytes { text.new.bytes ≡ lines (listed plan.now).block residuals.now (count plan.now) }
    ensures short { count text.new.bytes ≤ 53760 }
{
    let mut rest = residuals;
    for b in plan {
        let (own, after) = rest.split_at((b.side * b.side) as usize);
        text::push_line(text, *b, sums::sum_of(own));
        rest = after;
    }
}

// The whole walk.
fn walk_all(job: &Job, work: &mut [u16], residuals: &mut [i32]) -> Result<Advance, Rejected>
    requires { count job.now.plan.now ≤ 512 }
    ensures { WholeWalk (held_job job.now) (world_before work residuals) (world_after work residuals) (stepped_of result) }
{
    let mut scratch = AngularScratch::new();
    Progress::fresh().walk(
        job.still,
        job.plan,
        job.source,
        work,
        residuals,
        &mut scratch,
        job.plan.len() as u32,
    )
}

// The whole replay.
fn replay_all(job: &Job, residuals: &[i32], plane: &mut [u16])
    requires { count job.now.plan.now ≤ 512 }
    ensures { let j = held_job job.now in
        plane.new ≡ replay_after j.still j.plan scratch_tables 0 (count job.now.plan.now) residuals.now plane.old }
{
    let mut scratch = AngularScratch::new();
    let _ = Progress::fresh().replay(
        job.still,
        job.plan,
        residuals,
        plane,
        &mut scratch,
        job.plan.len() as u32,
    );
}

// The text of a still with its plan and its source; the slices are lent for the work.
fn tell(text: &mut Text, job: &Job, work: &mut [u16], residuals: &mut [i32], plane: &mut [u16])
    requires blank { Blank job.now.still (count job.now.plan.now) (world work.old residuals.old) plane.old }
    requires empty { text.old.bytes ≡ [] }
    ensures { text.new.bytes ≡ told (held_job job.now) }
{
    match walk_all(job, work, residuals) {
        Err(rejected) => text::push_refusal(text, rejected.fault),
        Ok(_) => {
            replay_all(job, residuals, plane);
            let same = sums::agrees(plane, job.source);
            push_lines(text, job.plan, residuals);
            text::push_ending(text, job.plan.len(), same);
        }
    }
}

// The text of a file that number 12 is not given for.
fn tell_file(text: &mut Text, b: &[u8], t: Trailer)
    requires good { GoodFile b.now t }
    requires empty { text.old.bytes ≡ [] }
    ensures { text.new.bytes ≡ told (job_of b.now) }
{
    let samples = t.area();
    let blocks = t.blocks as usize;
    let source = file::read_samples(b, t.samples, samples);
    let plan = file::read_plan(b, t.plan, blocks);
    let mut work = [0u16; 8192];
    let mut residuals = [0i32; 8192];
    let mut plane = [0u16; 8192];
    let job = Job {
        still: t.still(),
        plan: &plan[..blocks],
        source: &source[..samples],
    };
    tell(
        text,
        &job,
        &mut work[..samples],
        &mut residuals[..samples],
        &mut plane[..samples],
    );
}

// A text of its own for a file, or its refusal.
fn push_report(text: &mut Text, input: &[u8])
    requires { text.old.bytes ≡ [] }
    ensures { text.new.bytes ≡ printed input.now }
{
    match Trailer::read(input) {
        Some(t) => tell_file(text, input, t),
        None => text::push_refusal(text, Fault::from(Refusal::File)),
    }
}

// What intrawalk prints of its whole input.
pub fn report(input: &[u8]) -> Printout
    ensures { result ≡ report_of input.now }
{
    let mut written = Text::new();
    push_report(&mut written, input);
    let length = written.len();
    let mut text = [0u8; 65536];
    text[..length].copy_from_slice(written.as_str().as_bytes());
    Printout { text, length }
}
