// The admission of a batch: all that can be refused is refused here, and nothing is written.
ghost use Rattle.std.specs.Prelude.{◌≡◌, true, ◌≤◌, ◌<◌, length};
ghost use Rattle.frame.specs.Record.{well_frame};
ghost use Rattle.motion.specs.saving.Area.{well_area};
ghost use Rattle.motion.specs.loading.Fields.{lengths_of};
ghost use Rattle.jobs.specs.Code.Step.{Able};
ghost use Rattle.jobs.specs.Code.Admit.{Areas};
ghost use Rattle.jobs.specs.Inputs.{used_fields, used_sources, handed_with};
ghost use Rattle.jobs.specs.Admit.{job_reads, job_answer, jobs_answer, alone_at, apart, batch_answer};

use crate::inputs::Inputs;
use crate::job::front::job_front;
use crate::job::record::{Batch, Job, count_of};
use crate::job::share::do_meet;
use crate::work::row::check_work;
use frame::record::Frame;

// The first of a job's rows of work that lacks something answers.
fn check_reads(inputs: &Inputs, job: Job) -> u8
    requires f_value { (well_frame inputs.now.frame ≡ true) × (well_area inputs.now.frame.sizes job.area ≡ true) }
    requires able { Able inputs.now.frame job (lengths_of (used_fields inputs.now)) (length inputs.now.recs.now) }
    ensures { result ≡ job_reads inputs.now.frame (used_sources inputs.now) inputs.now.recs.now job }
{
    let n = count_of(inputs.frame, job);
    for k in 0..n {
        let answer = check_work(inputs, job, k);
        if answer != 0 {
            return answer;
        }
    }
    0
}

fn check_job(inputs: &Inputs, job: Job, proj: usize, saved: usize) -> u8
    ensures { result ≡ job_answer (handed_with inputs.now proj saved) job }
{
    let front = job_front(inputs.frame, inputs.lent, inputs.lengths(proj, saved), job);
    if front != 0 {
        return front;
    }
    check_reads(inputs, job)
}

// The first refused job of the list answers.
fn check_jobs(inputs: &Inputs, batch: Batch, proj: usize, saved: usize) -> u8
    requires { batch.n ≤ 8 }
    ensures { result ≡ jobs_answer (handed_with inputs.now proj saved) batch }
{
    for i in 0..batch.n {
        let answer = check_job(inputs, batch.jobs[i], proj, saved);
        if answer != 0 {
            return answer;
        }
    }
    0
}

// Whether no job before job j shares a cell with it.
fn is_alone(f: Frame, batch: Batch, j: usize) -> bool
    requires { Areas f batch batch.n × (j < batch.n) }
    ensures { result ≡ alone_at f batch j }
{
    (0..j).all(|i| !do_meet(f, batch.jobs[i], batch.jobs[j]))
}

fn are_apart(f: Frame, batch: Batch) -> bool
    requires { Areas f batch batch.n }
    ensures { result ≡ apart f batch }
{
    (0..batch.n).all(|j| is_alone(f, batch, j))
}

// 12 over all jobs; then the first refused job; 11 last.
pub fn admit(inputs: &Inputs, batch: Batch, proj: &[u8], saved: &[u8]) -> u8
    ensures { result ≡ batch_answer (handed_with inputs.now (length proj.now) (length saved.now)) batch }
{
    if !batch.well_formed() {
        return 12;
    }
    let refusal = check_jobs(inputs, batch, proj.len(), saved.len());
    if refusal != 0 {
        return refusal;
    }
    if are_apart(inputs.frame, batch) {
        0
    } else {
        11
    }
}
