// The finished record of a frame, which every later call is handed and checks.
ghost use Rattle.std.specs.Prelude.{◌≡◌};
ghost use Rattle.frame.specs.Record.{well_frame};

use crate::extent::sizes::Sizes;
use crate::hints::distances::RefHint;
use crate::mfmv::Mfmv;

// use_ref_frame_mvs is 1 where a reference is selected, temporal is the header's flag. The first
// n_mfmvs of mfmvs are selected: a length beside its places, for there is no heap, and `frame_of` and
// `well_frame` speak of both. The flags stay bytes: C hands any back, and `well_frame` judges them.
#[derive(Clone, Copy)]
pub struct Frame {
    pub sizes: Sizes,
    pub use_ref_frame_mvs: u8,
    pub temporal: u8,
    pub refs: [RefHint; 7],
    pub n_mfmvs: usize,
    pub mfmvs: [Mfmv; 3],
}

impl Frame {
    // Whether setup can give these values.
    pub fn well_formed(self) -> bool
        ensures { result ≡ well_frame self }
    {
        let hints = self.refs.iter().all(|h| h.well_formed());
        let mfmvs = self.mfmvs.iter().all(|m| m.well_formed());
        self.sizes.well_formed()
            && self.use_ref_frame_mvs <= 1
            && self.temporal <= 1
            && self.n_mfmvs <= 3
            && hints
            && mfmvs
    }
}
