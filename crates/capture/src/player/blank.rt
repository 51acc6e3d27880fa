// Blank buffers, as a capture's jobs find them.
ghost use Rattle.std.specs.Prelude.{◌≡◌};
ghost use Rattle.capture.specs.player.Played.{everywhere, blank_proj, blank_saved};

use cells::cell::{Cell, Ref};
use vector::mv::Mv;

const CELL: usize = 5;

fn lay_everywhere(s: &mut [u8], c: Cell)
    ensures { s.new ≡ everywhere c s.old }
{
    let n = s.len() / CELL;
    for i in 0..n {
        c.write(s, i);
    }
}

// No cell of a projection has a vector; each has reference 0.
pub fn blank_projection(proj: &mut [u8])
    ensures { proj.new ≡ everywhere blank_proj proj.old }
{
    let c = Cell {
        mv: Mv::INVALID,
        reference: Ref::INTRA,
    };
    lay_everywhere(proj, c);
}

// Each cell of a saved field is zero.
pub fn blank_saved(saved: &mut [u8])
    ensures { saved.new ≡ everywhere blank_saved saved.old }
{
    let c = Cell {
        mv: Mv::ZERO,
        reference: Ref::INTRA,
    };
    lay_everywhere(saved, c);
}
