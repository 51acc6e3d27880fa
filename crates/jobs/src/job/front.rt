// What is judged of a job before anything is read.
ghost use Rattle.std.specs.Prelude.{◌≡◌};
ghost use Rattle.jobs.specs.job.Job.{own_front, job_front};

use crate::job::record::{Job, Lengths, count_of};
use frame::record::Frame;
use motion::loading::fields::Lent;
use motion::loading::load::load_front;
use motion::saving::save::save_front;

fn own_front(f: Frame, lent: Lent, n: Lengths, job: Job) -> u8
    ensures { result ≡ own_front f lent n job }
{
    if job.is_load() {
        load_front(f, job.area, lent, n.fields, n.proj)
    } else {
        save_front(f, job.area, job.pass, n.recs, n.saved)
    }
}

// More steps done than there are is judged where the count can be told: after the area.
pub fn job_front(f: Frame, lent: Lent, n: Lengths, job: Job) -> u8
    ensures { result ≡ job_front f lent n job }
{
    if !f.well_formed() || !lent.well_formed() {
        return 1;
    }
    if !job.area.well_formed(f.sizes) {
        return 3;
    }
    if count_of(f, job) < job.done {
        return 12;
    }
    own_front(f, lent, n, job)
}
