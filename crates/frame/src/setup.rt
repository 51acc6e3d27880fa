// The sizes that frame setup takes from a description.
ghost use Rattle.std.specs.Prelude.{◌≡◌, true};
ghost use Rattle.frame.specs.extent.Sizes.{limits, sbsz_of, sizes_of};

use crate::extent::sizes::{Sizes, sizes_of};
use crate::hints::description::Description;
use cells::pos::Pos4;

fn sbsz_of(sb128: u8) -> Pos4
    ensures { result.0 ≡ sbsz_of sb128 }
{
    if sb128 == 1 { Pos4(32) } else { Pos4(16) }
}

// The sizes that follow from a description.
pub fn sizes_for(d: Description) -> Sizes
    requires { limits d.width d.height d.tile_rows d.tile_threads d.frame_threads ≡ true }
    ensures { result ≡ sizes_of d.width d.height (sbsz_of d.sb128) d.tile_rows d.tile_threads d.frame_threads }
{
    sizes_of(
        d.width,
        d.height,
        sbsz_of(d.sb128),
        d.tile_rows,
        d.tile_threads,
        d.frame_threads,
    )
}
