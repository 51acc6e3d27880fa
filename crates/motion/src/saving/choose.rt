// Which of a block's two vectors a saved cell keeps, and how many cells a block covers.
ghost use Rattle.std.specs.Prelude.{◌≡◌, ◌-◌, ◌≤◌};
ghost use Rattle.motion.specs.saving.Save.{cells_wide};
ghost use Rattle.motion.specs.Code.Walk.{hint_place, usable_by, chosen_by};

use cells::block::Block;
use cells::cell::{Cell, Ref};
use cells::size::dimensions;
use frame::hints::distances::RefHint;
use vector::mv::Mv;

// Where a reference's hint stands among the seven; for one that has none any place will do.
#[tactic(auto, unfolding(crate::specs::Code::Walk::hint_place))]
pub(crate) fn hint_place(r: Ref) -> usize
    ensures { (result ≡ hint_place r.0) × (result ≤ 6) }
{
    if r.from_to(1, 7) { r.place() } else { 0 }
}

// A later load can only use a vector that points to a frame before this one, and not too far. The
// hint is that of the cell's reference.
#[tactic(auto, unfolding(crate::specs::Code::Walk::usable_by))]
fn is_usable(hint: RefHint, c: Cell) -> bool
    ensures { result ≡ usable_by hint c }
{
    let r = c.reference;
    r.from_to(1, 7) && hint.mfmv_sign != 0 && c.mv.within(4095)
}

// The second reference first; all zero where neither will do. The hints are those of the two.
#[tactic(auto, unfolding(crate::specs::Code::Walk::chosen_by))]
pub(crate) fn choose(hint: RefHint, hint2: RefHint, b: Block) -> Cell
    ensures { result ≡ chosen_by hint hint2 b }
{
    let mv = b.mv;
    let by = b.refs;
    let second = cell_of(mv.second, by.second);
    if is_usable(hint2, second) {
        return second;
    }
    let first = cell_of(mv.first, by.first);
    if is_usable(hint, first) {
        return first;
    }
    cell_of(Mv::ZERO, Ref::INTRA)
}

fn cell_of(mv: Mv, reference: Ref) -> Cell
    ensures { result ≡ record { mv = mv; reference = reference } }
{
    Cell { mv, reference }
}

// A block's width in cells: a narrow block counts as one.
fn cells_wide(code: u8) -> usize
    ensures { (result ≡ cells_wide code) × (1 ≤ result) × (result ≤ 16) }
{
    match dimensions(code) {
        Some(d) => d.w.halved_up().0,
        None => 1,
    }
}

// A size code, and the width of its blocks in cells. The code is as wide as the other field: a
// struct with a gap in it would go through memory for each block.
#[derive(Clone, Copy)]
pub struct Width {
    pub code: usize,
    pub cells: usize,
}

// That of the smallest blocks, for a walk to start with.
pub(crate) fn narrowest() -> Width
    ensures { result.cells ≡ cells_wide result.code }
{
    Width {
        code: 21,
        cells: cells_wide(21),
    }
}

// The width of a block, by that of the block before it. Blocks of one size come in runs: while the
// code stays, a processor that guesses the test goes on to the next block with the width at hand,
// and doesn't wait for the code and the table.
pub(crate) fn width_after(last: Width, bs: u8) -> Width
    requires { last.cells ≡ cells_wide last.code }
    ensures { (result.code ≡ bs) × (result.cells ≡ cells_wide bs) × (1 ≤ result.cells) × (result.cells ≤ 16) }
{
    let code = bs as usize;
    if code == last.code {
        return last;
    }
    Width {
        code,
        cells: cells_wide(bs),
    }
}
