// Jobs on lent bytes: admission of a batch, and a step of one of its jobs.
ghost use Rattle.std.specs.Prelude.{◌≡◌, ℕ, ◌&&◌, ◌+◌, ◌*◌, ◌≤◌, leb, ltb, length};
ghost use Rattle.ground.specs.Answer.{accepted};
ghost use Rattle.ground.specs.Script.{run};
ghost use Rattle.motion.specs.loading.Fields.{lent, all_lent};
ghost use Rattle.jobs.specs.Inputs.{handed_with};
ghost use Rattle.jobs.specs.job.Bytes.{job_bytes, jobs_in};
ghost use Rattle.jaskkovir.specs.Batched.{handed_in, admitted_answer, stepped_number, stepped_proj, stepped_saved, done_patch, stepped_jobs};

use crate::motions::load_lacks;
use ground::write::put_size;
use jobs::admit::admit;
use jobs::inputs::Inputs;
use jobs::job::job_bytes::{CAPTURE_JOB, JOB, batch_of, job_in};
use jobs::step::{number_of, step_row};
use layout::frame_bytes::frame_at;
use layout::start::first_bytes;
use motion::loading::fields::{Lent, LentFields};
use motion::loading::used::uses_of;

// Whether a batch of so many bytes can be stepped, and has a job k.
fn is_named(len: usize, k: usize) -> bool
    ensures { result ≡ (leb (jobs_in job_bytes len) 8 && ltb k (jobs_in job_bytes len)) }
{
    let n = len / JOB;
    n <= 8 && k < n
}

// Only a step that is counted is written down, behind the bytes that a capture file's job has.
fn write_down(jobs: &mut [u8], k: usize, number: u8, done: usize)
    requires { (k ≤ 7) × (job_bytes * k + job_bytes ≤ length jobs.old) }
    ensures { jobs.new ≡ run (accepted number (done_patch k done)) jobs.old }
{
    if number == 0 {
        put_size(jobs, JOB * k + CAPTURE_JOB, done);
    }
}

// What the jobs read, of the parts that are lent.
fn inputs_in<'a>(
    frame: &[u8],
    present: &[u8],
    fields: LentFields<'a>,
    records: &'a [u8],
) -> Inputs<'a>
    requires { (109 ≤ length frame.now) × (7 ≤ length present.now) }
    ensures { (nproj nsaved : ℕ) → handed_with result nproj nsaved
        ≡ handed_in frame.now present.now (all_lent fields.entry) records.now nproj nsaved }
{
    let frame = frame_at(frame);
    let used = uses_of(frame);
    Inputs {
        frame,
        lent: Lent {
            form: first_bytes(present),
        },
        fields: fields.used(used),
        recs: records,
    }
}

// Whether the jobs may be stepped, in any order. The answer is 0 or a refusal; nothing is written.
pub fn jaskkovir_admit<'a>(
    frame: &[u8],
    present: &[u8],
    jobs: &[u8],
    f0: &'a [u8],
    f1: &'a [u8],
    f2: &'a [u8],
    f3: &'a [u8],
    f4: &'a [u8],
    f5: &'a [u8],
    f6: &'a [u8],
    records: &[u8],
    proj: &[u8],
    saved: &[u8],
) -> u8
    ensures { result ≡ admitted_answer frame.now present.now jobs.now
        (lent f0.now f1.now f2.now f3.now f4.now f5.now f6.now)
        records.now (length proj.now) (length saved.now) }
{
    if load_lacks(frame.len(), present.len()) {
        return 4;
    }
    let fields = LentFields {
        slices: [f0, f1, f2, f3, f4, f5, f6],
    };
    let inputs = inputs_in(frame, present, fields, records);
    admit(&inputs, batch_of(jobs, JOB), proj, saved)
}

// Steps job k by one row of work. The answer is 0 where it is counted, DONE where nothing is left to
// do, or a refusal; but for 0 nothing is written.
pub fn jaskkovir_step<'a>(
    frame: &[u8],
    present: &[u8],
    jobs: &mut [u8],
    k: usize,
    f0: &'a [u8],
    f1: &'a [u8],
    f2: &'a [u8],
    f3: &'a [u8],
    f4: &'a [u8],
    f5: &'a [u8],
    f6: &'a [u8],
    records: &[u8],
    proj: &mut [u8],
    saved: &mut [u8],
) -> u8
    ensures value { result ≡ stepped_number frame.now present.now jobs.old k
        (lent f0.now f1.now f2.now f3.now f4.now f5.now f6.now)
        records.now (length proj.old) (length saved.old) }
    ensures jobs_after { jobs.new ≡ run (stepped_jobs frame.now present.now jobs.old k
        (lent f0.now f1.now f2.now f3.now f4.now f5.now f6.now)
        records.now (length proj.old) (length saved.old)) jobs.old }
    ensures proj_after { proj.new ≡ run (stepped_proj frame.now present.now jobs.old k
        (lent f0.now f1.now f2.now f3.now f4.now f5.now f6.now)
        records.now (length proj.old) (length saved.old)) proj.old }
    ensures saved_after { saved.new ≡ run (stepped_saved frame.now present.now jobs.old k
        (lent f0.now f1.now f2.now f3.now f4.now f5.now f6.now)
        records.now (length proj.old) (length saved.old)) saved.old }
{
    if load_lacks(frame.len(), present.len()) {
        return 4;
    }
    if !is_named(jobs.len(), k) {
        return 12;
    }
    let job = job_in(jobs, k, JOB);
    let fields = LentFields {
        slices: [f0, f1, f2, f3, f4, f5, f6],
    };
    let inputs = inputs_in(frame, present, fields, records);
    let s = step_row(job, &inputs, proj, saved);
    let answer = s.answer;
    let number = number_of(answer);
    write_down(jobs, k, number, s.done);
    number
}
