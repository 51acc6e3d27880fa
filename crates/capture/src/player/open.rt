// A capture opened: what it hands over, and the refusals before any job is looked at.
ghost use Rattle.std.specs.Prelude.{◌≡◌};
ghost use Rattle.frame.specs.Record.{frame_of};
ghost use Rattle.frame.specs.hints.Description.{setup_answer};
ghost use Rattle.capture.specs.player.Opened.{described_in, batch_in, present_in, beyond, judged};

use crate::file::Capture;
use frame::hints::description::{Description, check_description};
use frame::record::Frame;
use jobs::job::job_bytes::{CAPTURE_JOB, batch_of};
use jobs::job::record::Batch;
use layout::description_bytes::description_at;
use layout::frame_bytes::{FRAME, frame_at, put_frame};
use std::array;

// Of a file, in bytes.
const MOST_BYTES: usize = 65536;

// Of a frame, in samples.
const MOST_SIDE: usize = 256;

const MOST_TILE_ROWS: usize = 4;

const DESCRIPTION_KIND: u8 = 1;

const JOBS_KIND: u8 = 2;

pub(crate) const FIRST_FIELD_KIND: usize = 16;

// Which of the seven fields are in the file.
pub(crate) fn present_in(capture: &Capture) -> [u8; 7]
    ensures { result ≡ present_in capture.now.entries.file.now }
{
    array::from_fn(|k| u8::from(capture.entries.find(FIRST_FIELD_KIND + k).is_some()))
}

pub(crate) fn batch_in(capture: &Capture) -> Batch
    ensures { result ≡ batch_in capture.now.entries.file.now }
{
    batch_of(capture.body(JOBS_KIND), CAPTURE_JOB)
}

pub(crate) fn described_in(capture: &Capture) -> Description
    ensures { result ≡ described_in capture.now.entries.file.now }
{
    description_at(capture.body(DESCRIPTION_KIND))
}

fn is_beyond(d: Description) -> bool
    ensures { result ≡ beyond d }
{
    MOST_SIDE < d.width || MOST_SIDE < d.height || MOST_TILE_ROWS < d.tile_rows
}

// 0, or the refusal of its jobs' kinds or of its frame: of what a well-formed file of so many bytes
// hands over.
pub(crate) fn judge(bytes: usize, batch: Batch, d: Description, present: [u8; 7]) -> u8
    ensures { result ≡ judged bytes batch d present }
{
    if MOST_BYTES < bytes {
        return 13;
    }
    if !batch.well_formed() {
        return 12;
    }
    if is_beyond(d) {
        return 1;
    }
    check_description(d, &d.hints_by_ref, present)
}

// Made in bytes, as the exported setup makes it, and read again.
pub(crate) fn made_frame(d: Description, present: [u8; 7]) -> Frame
    requires { setup_answer d present ≡ 0 }
    ensures { result ≡ frame_of d present }
{
    let hints = d.hints;
    let held = d.hints_by_ref;
    let mut record = [0u8; FRAME];
    put_frame(&mut record, d, &hints, &held, present);
    frame_at(&record)
}
