// One step of a job.
ghost use Rattle.std.specs.Prelude.{◌≡◌, length};
ghost use Rattle.ground.specs.Script.{run};
ghost use Rattle.jobs.specs.Inputs.{handed_with};
ghost use Rattle.jobs.specs.Step.{answer_of, number_of, step_number, stepped, step_proj, step_saved};

use crate::inputs::Inputs;
use crate::job::front::job_front;
use crate::job::record::{Job, count_of};
use crate::work::row::{check_work, do_work};

// What a step answers: one more row done, nothing left to do, or a refusal number.
#[derive(Clone, Copy)]
pub enum Answer {
    Moved,
    Done,
    Refused(u8),
}

// A job's answer, and its steps done afterwards.
#[derive(Clone, Copy)]
pub struct Stepped {
    pub answer: Answer,
    pub done: usize,
}

// Neither 0 nor a refusal.
pub const DONE: u8 = 15;

pub fn answer_of(number: u8) -> Answer
    ensures { result ≡ answer_of number }
{
    if number == 0 {
        return Answer::Moved;
    }
    if number == DONE {
        return Answer::Done;
    }
    Answer::Refused(number)
}

// The paper's number of an answer.
pub fn number_of(a: Answer) -> u8
    ensures { result ≡ number_of a }
{
    match a {
        Answer::Moved => 0,
        Answer::Done => DONE,
        Answer::Refused(n) => n,
    }
}

fn step_number(job: Job, inputs: &Inputs, proj: usize, saved: usize) -> u8
    ensures { result ≡ step_number (handed_with inputs.now proj saved) job }
{
    if !job.well_kind() {
        return 12;
    }
    let front = job_front(inputs.frame, inputs.lent, inputs.lengths(proj, saved), job);
    if front != 0 {
        return front;
    }
    if job.done == count_of(inputs.frame, job) {
        return DONE;
    }
    check_work(inputs, job, job.done)
}

// A refused step, and a finished job's, leave both buffers and the number of steps done.
pub fn step_row(job: Job, inputs: &Inputs, proj: &mut [u8], saved: &mut [u8]) -> Stepped
    ensures value { result ≡ stepped (handed_with inputs.now (length proj.old) (length saved.old)) job }
    ensures proj_after { proj.new ≡ run
        (step_proj (handed_with inputs.now (length proj.old) (length saved.old)) job)
        proj.old }
    ensures saved_after { saved.new ≡ run
        (step_saved (handed_with inputs.now (length proj.old) (length saved.old)) job)
        saved.old }
{
    let number = step_number(job, inputs, proj.len(), saved.len());
    let k = job.done;
    if number != 0 {
        return Stepped {
            answer: answer_of(number),
            done: k,
        };
    }
    do_work(inputs, job, k, proj, saved);
    Stepped {
        answer: Answer::Moved,
        done: k + 1,
    }
}
