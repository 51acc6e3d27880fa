// A step that names a job of a batch.
ghost use Rattle.std.specs.Prelude.{◌≡◌, length};
ghost use Rattle.ground.specs.Script.{run};
ghost use Rattle.jobs.specs.Inputs.{handed_with};
ghost use Rattle.order.specs.steps.Turn.{names, turned, turn_proj, turn_saved};

use crate::steps::step::step;
use jobs::inputs::Inputs;
use jobs::job::record::Batch;
use jobs::step::Answer;

// A step's answer, and its batch afterwards.
#[derive(Clone, Copy)]
pub struct Turned {
    pub answer: Answer,
    pub batch: Batch,
}

fn is_named(batch: Batch, k: usize) -> bool
    ensures { result ≡ names batch k }
{
    batch.n <= 8 && k < batch.n
}

// Steps job k of a batch: the batch afterwards has that job's steps done.
pub fn step_of(
    mut batch: Batch,
    k: usize,
    inputs: &Inputs,
    proj: &mut [u8],
    saved: &mut [u8],
) -> Turned
    ensures value { result ≡ turned (handed_with inputs.now (length proj.old) (length saved.old)) batch k }
    ensures proj_after { proj.new ≡ run
        (turn_proj (handed_with inputs.now (length proj.old) (length saved.old)) batch k)
        proj.old }
    ensures saved_after { saved.new ≡ run
        (turn_saved (handed_with inputs.now (length proj.old) (length saved.old)) batch k)
        saved.old }
{
    if !is_named(batch, k) {
        return Turned {
            answer: Answer::Refused(12),
            batch,
        };
    }
    let answer = step(&mut batch.jobs[k], inputs, proj, saved);
    Turned { answer, batch }
}
