// The part of a frame that a load or a save works on.
ghost use Rattle.std.specs.Prelude.{◌≡◌, true};
ghost use Rattle.frame.specs.extent.Sizes.{well_sizes};
ghost use Rattle.motion.specs.saving.Area.{well_area, bottom_of, end_of, limit_of, strip_of, window_of};

use cells::pos::Pos8;
use frame::extent::sizes::Sizes;
use rows::setup::in_frame;

// Columns left..right and rows top..bottom of a tile row, as asked for: not yet cut to the frame.
#[derive(Clone, Copy)]
pub struct Area {
    pub tile: usize,
    pub left: Pos8,
    pub right: Pos8,
    pub top: Pos8,
    pub bottom: Pos8,
}

// What a save walks: columns left..end and rows top..bottom, cut to the frame. A block may reach up
// to limit.
#[derive(Clone, Copy)]
pub struct Strip {
    pub left: Pos8,
    pub end: Pos8,
    pub limit: Pos8,
    pub top: Pos8,
    pub bottom: Pos8,
    pub stride: Pos8,
}

// What a load writes: columns left..right, rows top..bottom cut to the frame. The rows, modulo 16,
// lie in the tile row's part of the projection, which starts at cell part.
#[derive(Clone, Copy)]
pub struct Window {
    pub left: Pos8,
    pub right: Pos8,
    pub top: Pos8,
    pub bottom: Pos8,
    pub iw8: Pos8,
    pub stride: Pos8,
    pub part: usize,
}

impl Area {
    #[tactic(auto, unfolding(crate::specs::saving::Area::well_area))]
    pub fn well_formed(self, s: Sizes) -> bool
        ensures { result ≡ well_area s self }
    {
        self.left.0 <= self.right.0
            && self.right.0 <= s.stride.0
            && self.top.0 <= self.bottom.0
            && self.bottom.0 - self.top.0 <= 16
            && in_frame(s, self.tile)
    }

    #[tactic(auto, unfolding(crate::specs::saving::Area::bottom_of))]
    fn bottom_in(self, s: Sizes) -> Pos8
        ensures { result.0 ≡ bottom_of s self }
    {
        Pos8(self.bottom.0.min(s.ih8.0))
    }

    #[tactic(auto, unfolding(crate::specs::saving::Area::end_of))]
    fn end_in(self, s: Sizes) -> Pos8
        ensures { result.0 ≡ end_of s self }
    {
        Pos8(self.right.0.min(s.iw8.0))
    }

    // Only at the frame's own end may a block reach past the columns that are walked.
    #[tactic(auto, unfolding(crate::specs::saving::Area::limit_of))]
    fn limit_in(self, s: Sizes) -> Pos8
        ensures { result.0 ≡ limit_of s self }
    {
        let end = self.end_in(s);
        if end.0 < s.iw8.0 { end } else { s.stride }
    }

    #[tactic(auto, unfolding(crate::specs::saving::Area::strip_of))]
    pub fn strip_in(self, s: Sizes) -> Strip
        ensures { result ≡ strip_of s self }
    {
        let left = self.left;
        let top = self.top;
        let stride = s.stride;
        Strip {
            left,
            end: self.end_in(s),
            limit: self.limit_in(s),
            top,
            bottom: self.bottom_in(s),
            stride,
        }
    }

    pub fn window_in(self, s: Sizes) -> Window
        requires { (well_sizes s ≡ true) × (well_area s self ≡ true) }
        ensures { result ≡ window_of s self }
    {
        let left = self.left;
        let right = self.right;
        let top = self.top;
        let iw8 = s.iw8;
        let stride = s.stride;
        Window {
            left,
            right,
            top,
            bottom: self.bottom_in(s),
            iw8,
            stride,
            part: 16 * (s.part(self.tile) * stride.0),
        }
    }
}
