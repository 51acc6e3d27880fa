// The clearing of a load's row: vectors become INVALID, reference bytes stay.
ghost use Rattle.std.specs.Prelude.{◌≡◌, ◌+◌, ◌*◌, ◌≤◌, length};
ghost use Rattle.ground.specs.Put.{put};
ghost use Rattle.ground.specs.Script.{run};
ghost use Rattle.vector.specs.Vector.{invalid, mv_bytes};
ghost use Rattle.motion.specs.landing.Row.{clear_row};

use crate::saving::area::Window;
use vector::mv::Mv;

fn clear_cell(proj: &mut [u8], i: usize)
    requires { 5 * i + 5 ≤ length proj.old }
    ensures { proj.new ≡ put proj.old (5 * i) (mv_bytes invalid) }
{
    Mv::INVALID.write(proj, 5 * i);
}

pub fn clear_row(proj: &mut [u8], w: Window, y: usize)
    requires { (w.left.0 ≤ w.right.0) × (w.right.0 ≤ w.stride.0) × (5 * (w.part + 16 * w.stride.0) ≤ length proj.old) }
    ensures { proj.new ≡ run (clear_row w y) proj.old }
{
    let row = w.part + y % 16 * w.stride.0;
    for q in w.left.0..w.right.0 {
        clear_cell(proj, row + q);
    }
}
