// What jobs read and never write.
ghost use Rattle.std.specs.Prelude.{◌≡◌};
ghost use Rattle.jobs.specs.Inputs.{lengths_with};

use crate::job::record::Lengths;
use frame::record::Frame;
use motion::loading::fields::{Lent, UsedFields};

// What admission and every step are handed alike: the frame's record, how its seven fields are lent,
// those that a load uses, and the records. It is passed by reference, since a frame's record is large.
#[derive(Clone, Copy)]
pub struct Inputs<'a> {
    pub frame: Frame,
    pub lent: Lent,
    pub fields: UsedFields<'a>,
    pub recs: &'a [u8],
}

impl<'a> Inputs<'a> {
    // The two buffers that are written come by their lengths.
    pub(crate) fn lengths(&self, proj: usize, saved: usize) -> Lengths
        ensures { result ≡ lengths_with self.now proj saved }
    {
        Lengths {
            fields: self.fields.lengths(),
            recs: self.recs.len(),
            proj,
            saved,
        }
    }
}
