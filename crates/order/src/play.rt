// A list of steps, each naming a job.
ghost use Rattle.std.specs.Prelude.{◌≡◌};
ghost use Rattle.order.specs.Desk.{given_by, desk, plays};

use crate::steps::turn::step_of;
use jobs::inputs::Inputs;
use jobs::job::record::Batch;

// Takes the steps one after the other, whatever each answers. What is handed back is the batch with
// its steps done.
pub fn play(batch: Batch, steps: &[u8], inputs: &Inputs, proj: &mut [u8], saved: &mut [u8]) -> Batch
    ensures { desk result proj.new saved.new ≡ plays
        (given_by inputs.now) steps.now (desk batch proj.old saved.old) }
{
    let mut on = batch;
    for step in steps {
        on = step_of(on, usize::from(*step), inputs, proj, saved).batch;
    }
    on
}
