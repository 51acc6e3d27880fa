// A projected cell, read, and the candidate that it becomes.
ghost use Rattle.std.specs.Prelude.{◌≡◌, true, false, ◌*◌, ◌≤◌, ◌<◌, length, nat_abs};
ghost use Rattle.vector.specs.Vector.{Within};
ghost use Rattle.cells.specs.Cell.{well_projected, projected_absent};
ghost use Rattle.stack.specs.Code.Numbers.{pair_in};
ghost use Rattle.temporal.specs.Temporal.{towards, pair_of, cell_read, apart, far_of, zero_of};

use cells::block::MvPair;
use cells::cell::Cell;
use ground::sign::magnitude;
use stack::numbers::pair_bits;
use vector::mv::Mv;
use vector::precision::fix_mv_precision;
use vector::projection::mv_projection;

// How far the wanted references lie from the current frame, at which precision vectors are kept,
// and the global vector of the first reference. A single search has no second one.
#[derive(Clone, Copy)]
pub struct Aim {
    pub compound: bool,
    pub first: i16,
    pub second: i16,
    pub integer: bool,
    pub hp: bool,
    pub gmv: Mv,
}

#[derive(Clone, Copy)]
pub enum CellRead {
    Of(Cell),
    Absent,
    Refused(u8),
}

// 4 past the listed cells, of which there are total; 7 where the cell isn't well formed. The mark of
// a projected field is asked, and no other.
pub fn cell_at(proj: &[u8], total: usize, i: usize) -> CellRead
    requires { 5 * total ≤ length proj.now }
    ensures { result ≡ cell_read proj.now total i }
{
    if total <= i {
        return CellRead::Refused(4);
    }
    let c = Cell::read(proj, i);
    if !c.well_projected() {
        return CellRead::Refused(7);
    }
    if c.projected_absent() {
        return CellRead::Absent;
    }
    CellRead::Of(c)
}

// A vector over the distance den, taken over num instead.
fn take_towards(v: Mv, num: i16, den: u32, integer: bool, hp: bool) -> Mv
    requires { Within 4095 v × (nat_abs num ≤ 31) × (0 < den) × (den < 32) }
    ensures { (result ≡ towards num den integer hp v) × Within 16384 result }
{
    fix_mv_precision(mv_projection(v, num, den), integer, hp)
}

fn second_of(c: Cell, a: Aim, den: u32) -> Mv
    requires { Within 4095 c.mv × (nat_abs a.second ≤ 31) × (0 < den) × (den < 32) }
    ensures { result ≡ (pair_of a den c.mv).second }
{
    if a.compound {
        take_towards(c.mv, a.second, den, a.integer, a.hp)
    } else {
        Mv::ZERO
    }
}

// The candidate of a cell that isn't absent.
fn pair_of(c: Cell, a: Aim) -> MvPair
    requires { (well_projected c ≡ true) × (projected_absent c ≡ false) × (nat_abs a.first ≤ 31) × (nat_abs a.second ≤ 31) }
    ensures { (result ≡ pair_of a (nat_abs c.reference.0) c.mv) × Within 16384 result.first }
{
    // A projected cell's distance stands in place of a reference.
    let den = magnitude(i16::from(c.reference.0));
    let first = take_towards(c.mv, a.first, den, a.integer, a.hp);
    let second = second_of(c, a, den);
    MvPair { first, second }
}

// The candidate in one number, as the stack holds it: handed over in two it would be read again before
// both are laid.
pub fn bits_of(c: Cell, a: Aim) -> u64
    requires { (well_projected c ≡ true) × (projected_absent c ≡ false) × (nat_abs a.first ≤ 31) × (nat_abs a.second ≤ 31) }
    ensures { pair_in result ≡ pair_of a (nat_abs c.reference.0) c.mv }
{
    pair_bits(pair_of(c, a))
}

// Two samples or more apart.
fn is_apart(a: i16, b: i16) -> bool
    ensures { result ≡ apart a b }
{
    16 <= magnitude(a.saturating_sub(b))
}

fn is_far(v: Mv, g: Mv) -> bool
    ensures { result ≡ far_of v g }
{
    is_apart(v.y, g.y) || is_apart(v.x, g.x)
}

// The zero-motion context, which the block's first cell decides: the header's flag where it is
// absent.
pub fn zero_context(proj: &[u8], total: usize, i: usize, a: Aim, header: u8) -> u8
    requires { (5 * total ≤ length proj.now) × (nat_abs a.first ≤ 31) × (nat_abs a.second ≤ 31) × Within 16383 a.gmv }
    ensures { result ≡ zero_of a header (cell_read proj.now total i) }
{
    match cell_at(proj, total, i) {
        CellRead::Refused(_) => header,
        CellRead::Absent => header,
        CellRead::Of(c) => {
            let p = pair_of(c, a);
            u8::from(is_far(p.first, a.gmv))
        }
    }
}
