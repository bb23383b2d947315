// Angular prediction, modes 2 to 34, as H.265 8.4.4.2.6 has it. Rests on the standard's definitions, on the doors' numbers,
// on where lines start and on the arithmetic of one sample (taps).
// An angle stands as the angle plus 32 (`e`), and ref[i] at entry 64 + i of the scratch, so that no number is below 0.
ghost use Rattle.std.specs.Prelude.{◌≡◌, ℕ, ◌+◌, ◌-◌, ◌*◌, ◌/◌, ◌%◌, ◌≤◌, ◌<◌, List, length, get_or};
ghost use Rattle.laws.specs.Fill.{fill, run, rows, block};
ghost use Rattle.h265.specs.Notation.{from_rows};
ghost use Rattle.h265.specs.Angular.{angular};
ghost use Rattle.domain.specs.Facts.{Depth, Size};
ghost use Rattle.domain.specs.Refusal.{no_of};
ghost use Rattle.samples.specs.taps.Taps.{interp_of, edge_of};
ghost use Rattle.predict.specs.refusals.Refusals.{angular_no, refs_no, rows_no};
ghost use Rattle.predict.specs.Lent.{len, mut_len, entry_at, with_tables, lent_neighbours, Predicts, Becomes, Untouched};
ghost use Rattle.predict.specs.angular.Unsigned.{side_of, ref_at, vertical_at, angular_at};
ghost use Rattle.predict.specs.angles.Starts.{line_start, fraction_of, first_of};
ghost use Rattle.predict.specs.angles.Angles.{turns, bends};
ghost use Rattle.predict.specs.angular.Lines.{line_at, line_from, LineReads};
ghost use Rattle.predict.specs.angular.Parts.{laid_refs, laid_at};
ghost use Rattle.predict.specs.angular.Grid.{column};

use crate::refusals::Lent;
use crate::{angles, boundary, refusals};
use domain::refusal::Refusal;
use fmt::depth;
use samples::taps;

// Where row r of an angle starts in a row of references whose entry b is ref[1], and its fraction.
fn start(b: usize, e: usize, r: usize) -> usize
    requires { (e ≤ 64) × ((32 ≤ b + e) × ((b ≤ 128) × (r < 32))) }
    ensures { result ≡ line_start b e r }
{
    angles::start(b as u32, e as u32, r as u32)
}

fn fraction(e: usize, r: usize) -> u32
    requires { (e ≤ 64) × (r < 32) }
    ensures { (result ≡ fraction_of e r) × (result < 32) }
{
    angles::fraction(e as u32, r as u32)
}

// n references from s on, into a row.
fn copy_row(refs: &[u16], s: usize, n: usize, at: usize, pred: &mut [u16])
    requires { (s + n ≤ length refs.now) × (at + n ≤ length pred.old) }
    ensures { pred.new ≡ run (λ (c : ℕ). entry_at refs (s + c)) at n pred.old }
{
    for c in 0..n {
        pred[at + c] = refs[s + c];
    }
}

// The same between two references each.
fn mix_row(refs: &[u16], s: usize, f: u32, n: usize, at: usize, pred: &mut [u16])
    requires { (f < 32) × ((s + n + 1 ≤ length refs.now) × (at + n ≤ length pred.old)) }
    ensures { pred.new
        ≡ run (λ (c : ℕ). interp_of f (entry_at refs (s + c)) (entry_at refs (s + c + 1))) at n pred.old }
{
    for c in 0..n {
        pred[at + c] = taps::interp(f, refs[s + c], refs[s + c + 1]);
    }
}

// Both by way of a local array: all reads come before the first store, which lets the compiler use wide loads and stores.
fn through(refs: &[u16], s: usize, n: usize, at: usize, pred: &mut [u16])
    requires { (n ≤ 32) × ((s + n ≤ length refs.now) × (at + n ≤ length pred.old)) }
    ensures { pred.new ≡ run (λ (c : ℕ). entry_at refs (s + c)) at n pred.old }
{
    let mut t = [0u16; 32];
    copy_row(refs, s, n, 0, &mut t);
    copy_row(&t, 0, n, at, &mut *pred);
}

fn row(refs: &[u16], s: usize, f: u32, n: usize, at: usize, pred: &mut [u16])
    requires { (f < 32) × ((n ≤ 32) × ((s + n + 1 ≤ length refs.now) × (at + n ≤ length pred.old))) }
    ensures { pred.new
        ≡ run (λ (c : ℕ). interp_of f (entry_at refs (s + c)) (entry_at refs (s + c + 1))) at n pred.old }
{
    let mut t = [0u16; 32];
    mix_row(refs, s, f, n, 0, &mut t);
    copy_row(&t, 0, n, at, &mut *pred);
}

// Rows of a vertical mode from row first on, as many as count, from entry 0 of a block's buffer on: the whole block is rows 0 to n.
fn down_n(refs: &[u16], b: usize, e: usize, n: usize, first: usize, count: usize, pred: &mut [u16])
    requires { (e < 64) × (LineReads b e n (length refs.now) (length pred.old) × (first + count ≤ n)) }
    ensures { pred.new ≡ rows (line_from refs.now b e first) n count pred.old }
{
    for r in 0..count {
        row(
            refs,
            start(b, e, first + r),
            fraction(e, first + r),
            n,
            r * n,
            &mut *pred,
        );
    }
}

// A row of four is too short for wide stores, a block of four by four is not.
fn mix_rows(refs: &[u16], b: usize, e: usize, n: usize, pred: &mut [u16])
    requires { (e < 64) × LineReads b e n (length refs.now) (length pred.old) }
    ensures { pred.new ≡ block (line_at refs.now b e) n pred.old }
{
    for r in 0..n {
        mix_row(refs, start(b, e, r), fraction(e, r), n, r * n, &mut *pred);
    }
}

fn down_4(refs: &[u16], b: usize, e: usize, pred: &mut [u16])
    requires { (e < 64) × LineReads b e 4 (length refs.now) (length pred.old) }
    ensures { pred.new ≡ block (line_at refs.now b e) 4 pred.old }
{
    let mut t = [0u16; 16];
    mix_rows(refs, b, e, 4, &mut t);
    copy_row(&t, 0, 16, 0, &mut *pred);
}

fn down_few(refs: &[u16], b: usize, e: usize, first: usize, count: usize, pred: &mut [u16])
    requires { (e < 64) × (LineReads b e 4 (length refs.now) (length pred.old) × (first + count ≤ 4)) }
    ensures { pred.new ≡ rows (line_from refs.now b e first) 4 count pred.old }
{
    if count == 4 {
        down_4(refs, b, e, &mut *pred);
    } else {
        down_n(refs, b, e, 4, first, count, &mut *pred);
    }
}

// A loop for each size, so that the compiler knows how long a row is.
fn down(refs: &[u16], b: usize, e: usize, n: usize, first: usize, count: usize, pred: &mut [u16])
    requires { Size n × ((e < 64) × (LineReads b e n (length refs.now) (length pred.old) × (first + count ≤ n))) }
    ensures { pred.new ≡ rows (line_from refs.now b e first) n count pred.old }
{
    match n {
        4 => down_few(refs, b, e, first, count, &mut *pred),
        8 => down_n(refs, b, e, 8, first, count, &mut *pred),
        16 => down_n(refs, b, e, 16, first, count, &mut *pred),
        _ => down_n(refs, b, e, 32, first, count, &mut *pred),
    }
}

// Angles of whole references: each row is copied.
fn copies_n(
    refs: &[u16],
    b: usize,
    e: usize,
    n: usize,
    first: usize,
    count: usize,
    pred: &mut [u16],
)
    requires { (e % 32 ≡ 0) × (LineReads b e n (length refs.now) (length pred.old) × (first + count ≤ n)) }
    ensures { pred.new ≡ rows (line_from refs.now b e first) n count pred.old }
{
    for r in 0..count {
        through(refs, start(b, e, first + r), n, r * n, &mut *pred);
    }
}

fn copies(refs: &[u16], b: usize, e: usize, n: usize, first: usize, count: usize, pred: &mut [u16])
    requires { Size n × ((e % 32 ≡ 0) × (LineReads b e n (length refs.now) (length pred.old)
        × (first + count ≤ n))) }
    ensures { pred.new ≡ rows (line_from refs.now b e first) n count pred.old }
{
    match n {
        4 => copies_n(refs, b, e, 4, first, count, &mut *pred),
        8 => copies_n(refs, b, e, 8, first, count, &mut *pred),
        16 => copies_n(refs, b, e, 16, first, count, &mut *pred),
        _ => copies_n(refs, b, e, 32, first, count, &mut *pred),
    }
}

// The columns of a horizontal mode, by way of a local array too.
fn put_col(t: &[u16], n: usize, c: usize, pred: &mut [u16])
    requires { (c < n) × ((n ≤ 32) × ((n ≤ length t.now) × (n * n ≤ length pred.old))) }
    ensures { pred.new ≡ column (λ (r : ℕ). entry_at t r) c n n pred.old }
{
    for r in 0..n {
        pred[r * n + c] = t[r];
    }
}

fn col(refs: &[u16], s: usize, f: u32, n: usize, c: usize, pred: &mut [u16])
    requires { (f < 32) × ((c < n) × ((n ≤ 32) × ((s + n + 1 ≤ length refs.now) × (n * n ≤ length pred.old)))) }
    ensures { pred.new
        ≡ column (λ (r : ℕ). interp_of f (entry_at refs (s + r)) (entry_at refs (s + r + 1))) c n n pred.old }
{
    let mut t = [0u16; 32];
    mix_row(refs, s, f, n, 0, &mut t);
    put_col(&t, n, c, &mut *pred);
}

fn across_n(refs: &[u16], b: usize, e: usize, n: usize, pred: &mut [u16])
    requires { (0 < n) × ((e < 64) × LineReads b e n (length refs.now) (length pred.old)) }
    ensures { pred.new
        ≡ block (λ (r c : ℕ). line_at refs.now b e c r) n pred.old }
{
    for c in 0..n {
        col(refs, start(b, e, c), fraction(e, c), n, c, &mut *pred);
    }
}

fn across(refs: &[u16], b: usize, e: usize, n: usize, pred: &mut [u16])
    requires { Size n × ((e < 64) × LineReads b e n (length refs.now) (length pred.old)) }
    ensures { pred.new
        ≡ block (λ (r c : ℕ). line_at refs.now b e c r) n pred.old }
{
    match n {
        4 => across_n(refs, b, e, 4, &mut *pred),
        8 => across_n(refs, b, e, 8, &mut *pred),
        16 => across_n(refs, b, e, 16, &mut *pred),
        _ => across_n(refs, b, e, 32, &mut *pred),
    }
}

// Pure horizontal: each row is one sample.
fn flat_row(v: u16, n: usize, at: usize, pred: &mut [u16])
    requires { at + n ≤ length pred.old }
    ensures { pred.new ≡ run (λ (c : ℕ). v) at n pred.old }
{
    for c in 0..n {
        pred[at + c] = v;
    }
}

fn flats_n(left: &[u16], n: usize, pred: &mut [u16])
    requires { (n ≤ 32) × ((2 * n ≤ length left.now) × (n * n ≤ length pred.old)) }
    ensures { pred.new ≡ block (λ (r c : ℕ). entry_at left r) n pred.old }
{
    for r in 0..n {
        flat_row(left[r], n, r * n, &mut *pred);
    }
}

fn flats(left: &[u16], n: usize, pred: &mut [u16])
    requires { Size n × ((2 * n ≤ length left.now) × (n * n ≤ length pred.old)) }
    ensures { pred.new ≡ block (λ (r c : ℕ). entry_at left r) n pred.old }
{
    match n {
        4 => flats_n(left, 4, &mut *pred),
        8 => flats_n(left, 8, &mut *pred),
        16 => flats_n(left, 16, &mut *pred),
        _ => flats_n(left, 32, &mut *pred),
    }
}

// The edge samples of the pure modes.
fn edges(a: u16, side: &[u16], corner: u16, max: u16, n: usize, t: &mut [u16])
    requires { (n ≤ length side.now) × (n ≤ length t.old) }
    ensures { t.new ≡ fill (λ (i : ℕ). edge_of max a (entry_at side i) corner) n t.old }
{
    for i in 0..n {
        t[i] = taps::edge(a, side[i], corner, max);
    }
}

// The first column.
fn edge_col(a: u16, left: &[u16], corner: u16, max: u16, n: usize, pred: &mut [u16])
    requires { (0 < n) × ((n ≤ 32) × ((n ≤ length left.now) × (n * n ≤ length pred.old))) }
    ensures { pred.new
        ≡ column (λ (r : ℕ). edge_of max a (entry_at left r) corner) 0 n n pred.old }
{
    let mut t = [0u16; 32];
    edges(a, left, corner, max, n, &mut t);
    put_col(&t, n, 0, &mut *pred);
}

fn edge_down(a: u16, left: &[u16], corner: u16, max: u16, n: usize, pred: &mut [u16])
    requires { Size n × ((n < 32) × ((n ≤ length left.now) × (n * n ≤ length pred.old))) }
    ensures { pred.new
        ≡ column (λ (r : ℕ). edge_of max a (entry_at left r) corner) 0 n n pred.old }
{
    match n {
        4 => edge_col(a, left, corner, max, 4, &mut *pred),
        8 => edge_col(a, left, corner, max, 8, &mut *pred),
        _ => edge_col(a, left, corner, max, 16, &mut *pred),
    }
}

// The first row.
fn edge_row(a: u16, above: &[u16], corner: u16, max: u16, n: usize, pred: &mut [u16])
    requires { (n ≤ 32) × ((n ≤ length above.now) × (n ≤ length pred.old)) }
    ensures { pred.new
        ≡ fill (λ (c : ℕ). edge_of max a (entry_at above c) corner) n pred.old }
{
    let mut t = [0u16; 32];
    edges(a, above, corner, max, n, &mut t);
    copy_row(&t, 0, n, 0, &mut *pred);
}

fn edge_across(a: u16, above: &[u16], corner: u16, max: u16, n: usize, pred: &mut [u16])
    requires { Size n × ((n < 32) × ((n ≤ length above.now) × (n ≤ length pred.old))) }
    ensures { pred.new
        ≡ fill (λ (c : ℕ). edge_of max a (entry_at above c) corner) n pred.old }
{
    match n {
        4 => edge_row(a, above, corner, max, 4, &mut *pred),
        8 => edge_row(a, above, corner, max, 8, &mut *pred),
        _ => edge_row(a, above, corner, max, 16, &mut *pred),
    }
}

// A reference before the main row: the corner, or one projected from the side row.
fn lower(corner: u16, side: &[u16], inv: usize, j: usize) -> u16
    requires { (j ≤ 64) × ((side_of inv j ≤ 64) × (side_of inv j ≤ length side.now)) }
    ensures { (main : List ℕ) → result ≡ ref_at (from_rows corner main side.now) inv j }
{
    let s = ((64 - j) * inv + 128) / 256;
    if s == 0 {
        return corner;
    }
    side[s - 1]
}

fn lowers(corner: u16, side: &[u16], inv: usize, lo: usize, count: usize, refs: &mut [u16])
    requires { (lo + count ≤ 65) × ((side_of inv lo ≤ 64) × ((side_of inv lo ≤ length side.now)
        × (65 ≤ length refs.old))) }
    ensures { (main : List ℕ) → refs.new
        ≡ run (λ (i : ℕ). ref_at (from_rows corner main side.now) inv (lo + i)) lo count
        refs.old }
{
    for i in 0..count {
        refs[lo + i] = lower(corner, side, inv, lo + i);
    }
}

fn main_refs(main: &[u16], n: usize, refs: &mut [u16])
    requires { Size n × ((2 * n ≤ length main.now) × (65 + n ≤ length refs.old)) }
    ensures { refs.new ≡ run (λ (c : ℕ). entry_at main (0 + c)) 65 n refs.old }
{
    match n {
        4 => through(main, 0, 4, 65, &mut *refs),
        8 => through(main, 0, 8, 65, &mut *refs),
        16 => through(main, 0, 16, 65, &mut *refs),
        _ => through(main, 0, 32, 65, &mut *refs),
    }
}

// The references of a negative angle, as far as they are read.
fn build(corner: u16, main: &[u16], side: &[u16], e: usize, inv: usize, n: usize, refs: &mut [u16])
    requires { (e < 32) × ((side_of inv (first_of e n) ≤ 2 * n) × (Size n × ((2 * n ≤ length main.now)
        × ((2 * n ≤ length side.now) × (65 + n ≤ length refs.old))))) }
    ensures { refs.new
        ≡ run (λ (i : ℕ). ref_at (lent_neighbours corner main side) inv (first_of e n + i))
        (first_of e n) (65 + n - first_of e n) refs.old }
{
    let lo = angles::first(e as u32, n as u32);
    lowers(corner, side, inv, lo, 65 - lo, &mut *refs);
    main_refs(main, n, &mut *refs);
}

// Angles are below 0 where d is below 8; a test of e itself would turn the table into branches.
// What rows of a vertical mode are read from: references that are laid where the angle is below 0, the main row itself where it is not.
fn references(corner: u16, main: &[u16], side: &[u16], n: usize, d: usize, refs: &mut [u16])
    requires { Size n × ((d < 17) × ((2 * n ≤ length main.now) × ((2 * n ≤ length side.now)
        × (65 + n ≤ length refs.old)))) }
    ensures { refs.new
        ≡ laid_refs corner main.now side.now n d refs.old }
{
    if d < 8 {
        build(
            corner,
            main,
            side,
            angles::turn(d),
            angles::bend(d),
            n,
            &mut *refs,
        );
    }
}

fn lines(
    main: &[u16],
    refs: &[u16],
    n: usize,
    d: usize,
    first: usize,
    count: usize,
    pred: &mut [u16],
)
    requires { Size n × ((d < 17) × ((2 * n ≤ length main.now) × ((65 + n ≤ length refs.now)
        × ((n * n ≤ length pred.old) × (first + count ≤ n))))) }
    ensures { pred.new
        ≡ rows (λ (y x : ℕ). laid_at main.now refs.now d (first + y) x) n count
        pred.old }
{
    let e = angles::turn(d);
    if d < 8 {
        if e == 0 {
            copies(refs, 65, e, n, first, count, &mut *pred);
        } else {
            down(refs, 65, e, n, first, count, &mut *pred);
        }
    } else {
        if e == 64 {
            copies(main, 0, e, n, first, count, &mut *pred);
        } else {
            down(main, 0, e, n, first, count, &mut *pred);
        }
    }
}

// A vertical mode that is not 26: main is the row above, side the one to the left.
fn vertical(
    corner: u16,
    main: &[u16],
    side: &[u16],
    n: usize,
    d: usize,
    pred: &mut [u16],
    refs: &mut [u16],
)
    requires { Size n × ((d < 17) × ((2 * n ≤ length main.now) × ((2 * n ≤ length side.now)
        × ((n * n ≤ length pred.old) × (65 + n ≤ length refs.old))))) }
    ensures { pred.new
        ≡ block (vertical_at (lent_neighbours corner main side) (get_or turns d 0) (get_or bends d 0)) n pred.old }
{
    references(corner, main, side, n, d, &mut *refs);
    lines(main, &*refs, n, d, 0, n, &mut *pred);
}

// A horizontal mode that is not 10: main is the row to the left, side the one above, and rows are columns.
fn horizontal(
    corner: u16,
    main: &[u16],
    side: &[u16],
    n: usize,
    d: usize,
    pred: &mut [u16],
    refs: &mut [u16],
)
    requires { Size n × ((d < 17) × ((2 * n ≤ length main.now) × ((2 * n ≤ length side.now)
        × ((n * n ≤ length pred.old) × (65 + n ≤ length refs.old))))) }
    ensures { pred.new
        ≡ block (λ (r c : ℕ). vertical_at (lent_neighbours corner main side) (get_or turns d 0) (get_or bends d 0) c r) n
        pred.old }
{
    let e = angles::turn(d);
    if d < 8 {
        build(corner, main, side, e, angles::bend(d), n, &mut *refs);
        across(&*refs, 65, e, n, &mut *pred);
    } else {
        if e == 64 {
            copies(main, 0, e, n, 0, n, &mut *pred);
        } else {
            across(main, 0, e, n, &mut *pred);
        }
    }
}

// Modes 26 and 10.
fn pure_vertical(
    corner: u16,
    above: &[u16],
    left: &[u16],
    n: usize,
    edge: bool,
    bits: u32,
    pred: &mut [u16],
)
    requires { Depth bits × (Size n × ((2 * n ≤ length above.now) × ((2 * n ≤ length left.now)
        × (n * n ≤ length pred.old)))) }
    ensures { pred.new
        ≡ block (λ (y x : ℕ). angular_at bits edge n 26 (lent_neighbours corner above left) x y) n pred.old }
{
    copies(above, 0, 32, n, 0, n, &mut *pred);
    if boundary::filtered(edge, n) {
        edge_down(
            above[0],
            left,
            corner,
            depth::largest_of(bits),
            n,
            &mut *pred,
        );
    }
}

fn pure_horizontal(
    corner: u16,
    above: &[u16],
    left: &[u16],
    n: usize,
    edge: bool,
    bits: u32,
    pred: &mut [u16],
)
    requires { Depth bits × (Size n × ((2 * n ≤ length above.now) × ((2 * n ≤ length left.now)
        × (n * n ≤ length pred.old)))) }
    ensures { pred.new
        ≡ block (λ (y x : ℕ). angular_at bits edge n 10 (lent_neighbours corner above left) x y) n pred.old }
{
    flats(left, n, &mut *pred);
    if boundary::filtered(edge, n) {
        edge_across(
            left[0],
            above,
            corner,
            depth::largest_of(bits),
            n,
            &mut *pred,
        );
    }
}

pub(crate) fn angular_block(
    corner: u16,
    above: &[u16],
    left: &[u16],
    n: usize,
    mode: usize,
    edge: bool,
    bits: u32,
    pred: &mut [u16],
    refs: &mut [u16],
)
    requires { Depth bits × (Size n × ((2 ≤ mode) × ((mode < 35) × ((2 * n ≤ length above.now)
        × ((2 * n ≤ length left.now) × ((n * n ≤ length pred.old) × (65 + n ≤ length refs.old))))))) }
    ensures { pred.new
        ≡ block (λ (y x : ℕ). angular bits edge n mode (lent_neighbours corner above left) x y) n pred.old }
{
    match mode {
        10 => pure_horizontal(corner, above, left, n, edge, bits, &mut *pred),
        26 => pure_vertical(corner, above, left, n, edge, bits, &mut *pred),
        _ => {
            if mode < 18 {
                horizontal(corner, left, above, n, 18 - mode, &mut *pred, &mut *refs);
            } else {
                vertical(corner, above, left, n, mode - 18, &mut *pred, &mut *refs);
            }
        }
    }
}

// The slices are the three tables of the Rust's scratch. The indices and fractions are asked for and go unused: a column's are
// constants of its loop.
#[tactic(auto, using(crate::specs::angular::Door::fit_lent))]
pub fn predict_angular_slices(
    corner: u16,
    above: &[u16],
    left: &[u16],
    n: usize,
    mode: u8,
    filter_boundary: bool,
    bits: u32,
    pred: &mut [u16],
    refs: &mut [u16],
    indices: &mut [u32],
    fractions: &mut [u32],
) -> Result<(), Refusal>
    ensures { (no_of result ≡ angular_no bits n mode (with_tables (len above) (len left) (mut_len pred) refs indices fractions))
        × (Predicts (no_of result) n (angular bits filter_boundary n mode (lent_neighbours corner above left)) pred
        × ((no_of result ≡ 0 → ⊥) → Untouched refs indices fractions)) }
{
    let lent = Lent::of(above, left, &*pred, &*refs, &*indices, &*fractions);
    refusals::check_angular(bits, n, mode, lent)?;
    angular_block(
        corner,
        above,
        left,
        n,
        mode as usize,
        filter_boundary,
        bits,
        &mut *pred,
        &mut *refs,
    );
    Ok(())
}

// A vertical mode row by row, for who may not need them all: its references first, then rows of it, edges as they are.
#[tactic(auto, using(crate::specs::angular::Parts::refs_fit))]
pub fn vertical_refs(
    corner: u16,
    above: &[u16],
    left: &[u16],
    n: usize,
    mode: u8,
    refs: &mut [u16],
) -> Result<(), Refusal>
    ensures { (no_of result ≡ refs_no n mode (len above) (len left) (mut_len refs))
        × Becomes (no_of result) (laid_refs corner above.now left.now n (mode - 18) refs.old) refs }
{
    refusals::check_refs(n, mode, above.len(), left.len(), refs.len())?;
    references(corner, above, left, n, (mode as usize) - 18, &mut *refs);
    Ok(())
}

#[tactic(auto, using(crate::specs::angular::Parts::rows_fit))]
pub fn vertical_rows(
    above: &[u16],
    refs: &[u16],
    n: usize,
    mode: u8,
    first: usize,
    end: usize,
    pred: &mut [u16],
) -> Result<(), Refusal>
    ensures { (no_of result ≡ rows_no n mode first end (len above) (len refs) (mut_len pred))
        × Becomes (no_of result) (rows (λ (y x : ℕ). laid_at above.now refs.now (mode - 18) (first + y) x) n
        (end - first) pred.old) pred }
{
    refusals::check_rows(n, mode, first, end, above.len(), refs.len(), pred.len())?;
    lines(
        above,
        refs,
        n,
        (mode as usize) - 18,
        first,
        end - first,
        &mut *pred,
    );
    Ok(())
}
