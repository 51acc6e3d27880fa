// Block sizes.
ghost use Rattle.std.specs.Prelude.{◌≡◌};
ghost use Rattle.cells.specs.Size.{bs, size_of};

use crate::pos::Pos4;

// A block's width and height.
#[derive(Clone, Copy, Debug, PartialEq, Eq)]
pub struct Dims {
    pub w: Pos4,
    pub h: Pos4,
}

// A block of w x h samples.
fn samples(w: usize, h: usize) -> Option<Dims>
    ensures { result ≡ bs w h }
{
    Some(Dims {
        w: Pos4(w / 4),
        h: Pos4(h / 4),
    })
}

// Both dimensions of a size code, by the name that `BlockSize` has for it; none where it has none.
#[tactic(auto, using(crate::proofs::Sizes::miss), unfolding(crate::specs::Size::size_of))]
pub fn dimensions(code: u8) -> Option<Dims>
    ensures { result ≡ size_of code }
{
    match code {
        0 => samples(128, 128),
        1 => samples(128, 64),
        2 => samples(64, 128),
        3 => samples(64, 64),
        4 => samples(64, 32),
        5 => samples(64, 16),
        6 => samples(32, 64),
        7 => samples(32, 32),
        8 => samples(32, 16),
        9 => samples(32, 8),
        10 => samples(16, 64),
        11 => samples(16, 32),
        12 => samples(16, 16),
        13 => samples(16, 8),
        14 => samples(16, 4),
        15 => samples(8, 32),
        16 => samples(8, 16),
        17 => samples(8, 8),
        18 => samples(8, 4),
        19 => samples(4, 16),
        20 => samples(4, 8),
        21 => samples(4, 4),
        _ => None,
    }
}
