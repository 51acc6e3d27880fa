// Where a saved cell lands. Places are counted from 256 up, so that a place before the frame is a
// number too, and one formula serves both directions and both axes.
ghost use Rattle.std.specs.Prelude.{◌≡◌, true, ◌-◌, ◌≤◌, ◌<◌, pos, nat_abs, length, get_or};
ghost use Rattle.ground.specs.Script.{run};
ghost use Rattle.ground.specs.Sign.{from_to};
ghost use Rattle.ground.specs.Span.{span};
ghost use Rattle.vector.specs.Vector.{Within};
ghost use Rattle.motion.specs.Code.Places.{shift, near, Shifted, stamp, Stamps};

use crate::saving::area::Window;
use cells::cell::{Cell, Ref};
use ground::sign::{magnitude, negative};
use vector::projection::mv_projection;

// A reference as its cells are projected: its distance to the current frame, those to its own
// references (0: none), and whether its cells move against their offsets.
#[derive(Clone, Copy)]
pub struct Motion {
    pub cur: i16,
    pub apart: [u8; 7],
    pub back: bool,
}

// How far a cell's vector moves its row and its column.
#[derive(Clone, Copy)]
pub struct Shift {
    pub y: usize,
    pub x: usize,
}

#[tactic(auto, unfolding(crate::specs::Code::Places::shift))]
fn shift_of(back: bool, o: i16) -> usize
    requires { nat_abs o ≤ 16383 }
    ensures { (result ≡ shift back o) × (result < 512) }
{
    let m = (magnitude(o) / 64) as usize;
    if negative(o) != back {
        256 - m
    } else {
        256 + m
    }
}

// Along either axis: in reach of v's own group of 8, and within start..end.
#[tactic(auto, unfolding(crate::specs::Code::Places::near))]
pub(crate) fn is_near(slack: usize, start: usize, end: usize, v: usize, p: usize) -> bool
    requires { (slack ≤ 8) × (start ≤ 65536) × (end ≤ 65536) × (v ≤ 65536) × (p < 131072) }
    ensures { result ≡ near slack start end v p }
{
    let g = v / 8 * 8;
    g + 256 <= p + slack && p < g + 264 + slack && start + 256 <= p && p < end + 256
}

// How far the frame that a cell's vector points to lies before the cell's own; 0: not to be
// projected.
pub(crate) fn apart_of(apart: &[u8], r: Ref) -> u8
    requires { (length apart.now ≡ 7) × (from_to (pos 1) (pos 7) r.0 ≡ true) }
    ensures { result ≡ get_or apart.now (nat_abs r.0 - 1) 0 }
{
    apart[r.place()]
}

pub(crate) fn shifts(c: Cell, m: Motion, den: u8) -> Shift
    requires den_nonzero { (0 < den) × (den ≤ 31) × (nat_abs m.cur ≤ 31) }
    requires within { Within 4095 c.mv }
    ensures { Shifted m den c result }
{
    let o = mv_projection(c.mv, m.cur, den as u32);
    let y = shift_of(m.back, o.y);
    let x = shift_of(m.back, o.x);
    Shift { y, x }
}

fn land_one(proj: &mut [u8], w: Window, row: usize, d: usize, c: Cell, x: usize)
    requires { Stamps w row d x (length proj.old) }
    ensures { proj.new ≡ run (stamp w row d c x) proj.old }
{
    let p = x + d;
    if is_near(8, w.left.0, w.right.0, x, p) {
        c.write(proj, row + (p - 256));
    }
}

// The columns a..e hold like cells, which leave c in a row of the projection that starts at cell
// row.
pub(crate) fn land_run(
    proj: &mut [u8],
    w: Window,
    row: usize,
    d: usize,
    c: Cell,
    a: usize,
    e: usize,
)
    requires { Stamps w row d e (length proj.old) × (a ≤ e) }
    ensures { proj.new ≡ run (span (stamp w row d c) a e) proj.old }
{
    for x in a..e {
        land_one(proj, w, row, d, c, x);
    }
}
