// A row of a load: runs of like cells, each projected once.
ghost use Rattle.std.specs.Prelude.{◌≡◌, true, ◌+◌, ◌*◌, ◌≤◌, ◌<◌, length};
ghost use Rattle.ground.specs.Script.{run};
ghost use Rattle.ground.specs.Span.{span};
ghost use Rattle.cells.specs.Cell.{well_saved};
ghost use Rattle.motion.specs.landing.Row.{first_source, end_source, lane, row_script, source_at};
ghost use Rattle.motion.specs.Code.Places.{apart_by, Run, Room, Numbers, Sound, Going, Taken};

use crate::landing::land::{Motion, apart_of, is_near, land_run, shifts};
use crate::landing::source::{source_end, source_start};
use crate::saving::area::Window;
use cells::cell::{Cell, Ref};

fn is_alike(a: Cell, b: Cell) -> bool
    ensures { result ≡ true → a ≡ b }
{
    a == b
}

// Where the run of cells like c ends that starts at column x; first is the row's first cell.
fn run_end(src: &[u8], first: usize, x: usize, end: usize, c: Cell) -> usize
    requires { (x < end) × (5 * (first + end) ≤ length src.now) × (c ≡ source_at src.now first x) }
    ensures { Run (source_at src.now first) x end c result }
{
    for e in x + 1..end {
        if !is_alike(Cell::read(src, first + e), c) {
            return e;
        }
    }
    end
}

// What a cell leaves in the projection: its vector, and the distance for a reference.
fn with_distance(c: Cell, den: u8) -> Cell
    requires { den ≤ 31 }
    ensures { result ≡ apart_by c den }
{
    let mv = c.mv;
    Cell {
        mv,
        reference: Ref(den as i8),
    }
}

// A run from column x on whose cell c moves: each is landed. Returns the column after the run.
fn take_run(
    src: &[u8],
    first: usize,
    proj: &mut [u8],
    w: Window,
    m: Motion,
    y: usize,
    x: usize,
    end: usize,
    c: Cell,
    den: u8,
) -> usize
    requires going { Going (length src.now) first (length proj.old) w m y x end }
    requires taken { Taken m c den }
    requires c_value { c ≡ source_at src.now first x }
    ensures lower_bound { (x < result) × (result ≤ end) }
    ensures proj_after { proj.new ≡ run (span (lane (source_at src.now first) w m y) x result) proj.old }
{
    let s = shifts(c, m, den);
    let e = run_end(src, first, x, end, c);
    let p = y + s.y;
    if !is_near(0, w.top.0, w.bottom.0, y, p) {
        return e;
    }
    let row = w.part + (p - 256) % 16 * w.stride.0;
    land_run(proj, w, row, s.x, with_distance(c, den), x, e);
    e
}

// What stands at column x: absent, not to be projected, or a run. Returns the next column. The
// distances of m are lent beside it, so that no cell copies them.
fn follow(
    src: &[u8],
    first: usize,
    proj: &mut [u8],
    w: Window,
    m: Motion,
    apart: &[u8],
    y: usize,
    x: usize,
    end: usize,
) -> usize
    requires going { Going (length src.now) first (length proj.old) w m y x end }
    requires x_value { well_saved (source_at src.now first x) ≡ true }
    requires apart_value { (apart.now ≡ m.apart) × (length apart.now ≡ 7) }
    ensures lower_bound { (x < result) × (result ≤ end) }
    ensures proj_after { proj.new ≡ run (span (lane (source_at src.now first) w m y) x result) proj.old }
{
    let c = Cell::read(src, first + x);
    if c.saved_absent() {
        return x + 1;
    }
    let den = apart_of(apart, c.reference);
    if den == 0 {
        return x + 1;
    }
    take_run(src, first, proj, w, m, y, x, end, c, den)
}

// Row y of a reference's field, taken into the projection.
pub fn load_row(src: &[u8], proj: &mut [u8], w: Window, m: Motion, y: usize)
    requires room { Room (length src.now) (length proj.old) w y }
    requires numbers { Numbers m }
    requires sound { Sound (source_at src.now (y * w.stride.0)) (first_source w) (end_source w) }
    ensures { proj.new ≡ run (row_script (source_at src.now (y * w.stride.0)) w m y) proj.old }
{
    let first = y * w.stride.0;
    let end = source_end(w);
    let apart = m.apart;
    let mut x = source_start(w);
    // Each turn goes on by the run that it read.
    while x < end {
        x = follow(src, first, proj, w, m, &apart, y, x, end);
    }
}
