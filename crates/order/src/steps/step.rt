// A job's record, lent and stepped where it stands.
ghost use Rattle.std.specs.Prelude.{◌≡◌, length};
ghost use Rattle.ground.specs.Script.{run};
ghost use Rattle.jobs.specs.Inputs.{handed_with};
ghost use Rattle.jobs.specs.Step.{answer_of, step_number, step_done, step_proj, step_saved};
ghost use Rattle.order.specs.steps.Turn.{with_done};

use jobs::inputs::Inputs;
use jobs::job::record::Job;
use jobs::step::{Answer, step_row};

// Writes back the steps done, and nothing else of the record. Where the step is refused or its job
// finished `step_row` gives the old number, so that it can be stored without a test.
pub fn step(job: &mut Job, inputs: &Inputs, proj: &mut [u8], saved: &mut [u8]) -> Answer
    ensures value { result ≡ answer_of
        (step_number (handed_with inputs.now (length proj.old) (length saved.old)) job.old) }
    ensures job_after { job.new ≡ with_done job.old
        (step_done (handed_with inputs.now (length proj.old) (length saved.old)) job.old) }
    ensures proj_after { proj.new ≡ run
        (step_proj (handed_with inputs.now (length proj.old) (length saved.old)) job.old)
        proj.old }
    ensures saved_after { saved.new ≡ run
        (step_saved (handed_with inputs.now (length proj.old) (length saved.old)) job.old)
        saved.old }
{
    let stepped = step_row(*job, inputs, proj, saved);
    job.done = stepped.done;
    stepped.answer
}
