// A capture played.
ghost use Rattle.std.specs.Prelude.{◌≡◌, [], ◌≤◌, ◌<◌, get_or};
ghost use Rattle.motion.specs.loading.Used.{use_at};
ghost use Rattle.order.specs.Desk.{given_by, desk, plays};
ghost use Rattle.capture.specs.player.Opened.{fields_in, given_in};
ghost use Rattle.capture.specs.player.Played.{in_order, batch_played, batch_desk, played_answer, played_desk, stride_of};

use crate::file::{Capture, Malformed};
use crate::player::blank::{blank_projection, blank_saved};
use crate::player::open::{
    FIRST_FIELD_KIND, batch_in, described_in, judge, made_frame, present_in,
};
use cells::pos::Pos8;
use frame::record::Frame;
use jobs::admit::admit;
use jobs::inputs::Inputs;
use jobs::job::job_bytes::{CAPTURE_JOB, batch_of};
use jobs::job::record::Batch;
use motion::loading::fields::{Lent, UsedFields};
use motion::loading::used::{Uses, uses_of};
use order::play::play;

// The answer is 0 or a refusal; the batch has the steps done. stride is the frame's, for finding a
// cell's row and column, and 0 where the capture is refused.
#[derive(Clone, Copy)]
pub struct Played {
    pub answer: u8,
    pub stride: Pos8,
    pub batch: Batch,
}

// No job has more steps: 16 rows that are cleared, and taken from three references.
const MOST_STEPS: usize = 64;

const RECORDS_KIND: u8 = 4;

const FIELDS: usize = 7;

fn refused(answer: u8, batch: Batch) -> Played
    ensures { result ≡ record { answer = answer; stride = record { 0 = 0 }; batch = batch } }
{
    Played {
        answer,
        stride: Pos8(0),
        batch,
    }
}

// Runs the jobs in list order, each to its end.
fn play_all(batch: Batch, inputs: &Inputs, proj: &mut [u8], saved: &mut [u8]) -> Batch
    requires { batch.n ≤ 8 }
    ensures { desk result proj.new saved.new ≡ plays
        (given_by inputs.now) (in_order batch.n) (desk batch proj.old saved.old) }
{
    let mut on = batch;
    for k in 0..batch.n {
        let steps = [k as u8; MOST_STEPS];
        on = play(on, &steps, inputs, proj, saved);
    }
    on
}

// Admits the batch, and plays it over the buffers, blank; a batch that is refused leaves them.
pub fn play_batch(b: Batch, inputs: &Inputs, proj: &mut [u8], saved: &mut [u8]) -> Played
    ensures answer_value { result.answer ≡ batch_played (given_by inputs.now) b proj.old saved.old }
    ensures stride_value { result.stride.0 ≡ stride_of result.answer (given_by inputs.now) }
    ensures saved_after { desk result.batch proj.new saved.new ≡ batch_desk (given_by inputs.now) b proj.old saved.old }
{
    let answer = admit(inputs, b, proj, saved);
    if answer != 0 {
        return refused(answer, b);
    }
    blank_projection(proj);
    blank_saved(saved);
    let done = play_all(b, inputs, proj, saved);
    Played {
        answer,
        stride: inputs.frame.sizes.stride,
        batch: done,
    }
}

// The field of use i.
fn field_in<'a>(capture: &Capture<'a>, us: Uses, i: usize) -> &'a [u8]
    requires { i < 3 }
    ensures { result.now ≡ get_or (fields_in capture.now.entries.file.now) (use_at us i).field [] }
{
    let k = us.at[i].field;
    if k < FIELDS {
        capture.body((FIRST_FIELD_KIND + k) as u8)
    } else {
        &[]
    }
}

// Plays what a file hands over whose rules are judged already.
fn play_well(capture: &Capture, proj: &mut [u8], saved: &mut [u8]) -> Played
    ensures answer_value { result.answer ≡ played_answer capture.now.entries.file.now proj.old saved.old }
    ensures stride_value { result.stride.0 ≡ stride_of result.answer (given_in capture.now.entries.file.now) }
    ensures saved_after { desk result.batch proj.new saved.new
        ≡ played_desk capture.now.entries.file.now proj.old saved.old }
{
    let batch = batch_in(capture);
    let d = described_in(capture);
    let present = present_in(capture);
    let answer = judge(capture.entries.file.len(), batch, d, present);
    if answer != 0 {
        return refused(answer, batch);
    }
    let f = made_frame(d, present);
    let us = uses_of(f);
    let fields = UsedFields {
        slices: [
            field_in(capture, us, 0),
            field_in(capture, us, 1),
            field_in(capture, us, 2),
        ],
    };
    let inputs = Inputs {
        frame: f,
        lent: Lent { form: present },
        fields,
        recs: capture.body(RECORDS_KIND),
    };
    play_batch(batch, &inputs, proj, saved)
}

// Plays a capture over two lent buffers: its jobs in list order. Its rules are judged once. A capture
// that is refused leaves the buffers as they were, and the batch that is handed back is as the file has
// it.
pub fn play_capture(file: &[u8], proj: &mut [u8], saved: &mut [u8]) -> Played
    ensures answer_value { result.answer ≡ played_answer file.now proj.old saved.old }
    ensures stride_value { result.stride.0 ≡ stride_of result.answer (given_in file.now) }
    ensures saved_after { desk result.batch proj.new saved.new ≡ played_desk file.now proj.old saved.old }
{
    match Capture::of(file) {
        Ok(capture) => play_well(&capture, proj, saved),
        Err(Malformed) => refused(13, batch_of(&[], CAPTURE_JOB)),
    }
}
