// The job's record, and a batch of them.
ghost use Rattle.std.specs.Prelude.{◌≡◌, true, ◌≤◌};
ghost use Rattle.ground.specs.Below.{all_below};
ghost use Rattle.frame.specs.Record.{well_frame};
ghost use Rattle.motion.specs.saving.Area.{well_area};
ghost use Rattle.jobs.specs.job.Job.{job_at, is_load, well_kind, well_batch, count_of};

use frame::extent::sizes::one_to;
use frame::record::Frame;
use motion::loading::step::steps_of;
use motion::loading::used::uses_of;
use motion::saving::area::Area;
use rows::setup::is_pass;

// A load has no use for sby and pass; its pass is judged all the same. done is how many of its steps
// are done.
#[derive(Clone, Copy)]
pub struct Job {
    // 0 for a load, 1 for a save. Stays a number: a job is read from bytes that hold any, and is judged later.
    pub kind: u8,
    pub area: Area,
    pub sby: usize,
    pub pass: usize,
    pub done: usize,
}

// The first n of eight jobs, in list order.
#[derive(Clone, Copy)]
pub struct Batch {
    pub n: usize,
    pub jobs: [Job; 8],
}

// How long the lent buffers are, in bytes: the fields are those of the references that a load uses.
#[derive(Clone, Copy)]
pub struct Lengths {
    pub fields: [usize; 3],
    pub recs: usize,
    pub proj: usize,
    pub saved: usize,
}

impl Job {
    pub fn well_kind(self) -> bool
        ensures { result ≡ well_kind self }
    {
        self.kind <= 1 && is_pass(self.pass)
    }

    // Whether it is a load: any other kind counts as a save.
    pub(crate) fn is_load(self) -> bool
        ensures { result ≡ is_load self }
    {
        self.kind == 0
    }
}

fn are_kinds(batch: Batch) -> bool
    requires { batch.n ≤ 8 }
    ensures { result ≡ all_below batch.n (λ i. well_kind (job_at batch i)) }
{
    batch.jobs[..batch.n].iter().all(|job| job.well_kind())
}

impl Batch {
    // Refusal 12 over all jobs, before anything else is judged.
    pub fn well_formed(self) -> bool
        ensures { result ≡ well_batch self }
    {
        one_to(8, self.n) && are_kinds(self)
    }
}

// A load's rows times one more than its used references, or a save's rows.
pub fn count_of(f: Frame, job: Job) -> usize
    requires { (well_frame f ≡ true) × (well_area f.sizes job.area ≡ true) }
    ensures { result ≡ count_of f job }
{
    if job.is_load() {
        return steps_of(job.area.window_in(f.sizes), uses_of(f));
    }
    let strip = job.area.strip_in(f.sizes);
    strip.bottom.0.saturating_sub(strip.top.0)
}
