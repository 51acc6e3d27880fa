// Jobs in bytes, the low byte of a number first, in two lengths: the 13 bytes that a capture file has,
// and these with four more for the steps done.
ghost use Rattle.std.specs.Prelude.{◌≡◌, ◌+◌, ◌*◌, ◌≤◌, length};
ghost use Rattle.jobs.specs.job.Job.{no_job};
ghost use Rattle.jobs.specs.job.Bytes.{capture_job, job_held, done_at, job_in, place_in, batch_of};

use crate::job::record::{Batch, Job};
use cells::pos::Pos8;
use ground::read::{one_at, size_at, two_at};
use motion::saving::area::Area;
use std::array;

// A job in a capture file.
pub const CAPTURE_JOB: usize = 13;

// A job that is lent to be stepped.
pub const JOB: usize = 17;

// The job that the bytes hold, whatever they are: admission and each step judge it.
fn job_at(s: &[u8], at: usize, done: usize) -> Job
    requires { at + capture_job ≤ length s.now }
    ensures { result ≡ job_held s.now at done }
{
    let area = Area {
        tile: one_at(s, at + 1),
        left: Pos8(two_at(s, at + 2)),
        right: Pos8(two_at(s, at + 4)),
        top: Pos8(two_at(s, at + 6)),
        bottom: Pos8(two_at(s, at + 8)),
    };
    Job {
        kind: s[at],
        area,
        sby: two_at(s, at + 10),
        pass: one_at(s, at + 12),
        done,
    }
}

// How many of its steps are done, in jobs of so many bytes: a capture file doesn't say, and none are.
fn done_at(s: &[u8], at: usize, size: usize) -> usize
    requires { at + size ≤ length s.now }
    ensures { result ≡ done_at size s.now at }
{
    if size < JOB {
        0
    } else {
        size_at(s, at + CAPTURE_JOB)
    }
}

pub fn job_in(s: &[u8], i: usize, size: usize) -> Job
    requires { (capture_job ≤ size) × (size * i + size ≤ length s.now) }
    ensures { result ≡ job_in size s.now i }
{
    let at = size * i;
    job_at(s, at, done_at(s, at, size))
}

// What stands in a batch's places behind its last job.
fn no_job() -> Job
    ensures { result ≡ no_job }
{
    let area = Area {
        tile: 0,
        left: Pos8(0),
        right: Pos8(0),
        top: Pos8(0),
        bottom: Pos8(0),
    };
    Job {
        kind: 0,
        area,
        sby: 0,
        pass: 0,
        done: 0,
    }
}

fn place_in(s: &[u8], i: usize, size: usize) -> Job
    requires { capture_job ≤ size }
    ensures { result ≡ place_in size s.now i }
{
    if i < s.len() / size {
        job_in(s, i, size)
    } else {
        no_job()
    }
}

// The batch of jobs of so many bytes each, one behind the other: its first eight, and how many there are.
pub fn batch_of(s: &[u8], size: usize) -> Batch
    requires { capture_job ≤ size }
    ensures { result ≡ batch_of size s.now }
{
    Batch {
        n: s.len() / size,
        jobs: array::from_fn(|i| place_in(s, i, size)),
    }
}
