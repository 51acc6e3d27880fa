// Whether two jobs' windows share a cell.
ghost use Rattle.std.specs.Prelude.{◌≡◌, true, ◌≤◌, ◌<◌};
ghost use Rattle.frame.specs.Record.{well_frame};
ghost use Rattle.motion.specs.saving.Area.{well_area};
ghost use Rattle.jobs.specs.job.Share.{overlap, within16, overlap16, loads_meet, saves_meet, meets};

use crate::job::record::Job;
use frame::record::Frame;
use motion::saving::area::{Strip, Window};

fn overlaps(a: usize, e: usize, b: usize, f: usize) -> bool
    ensures { result ≡ overlap a e b f }
{
    a.max(b) < e.min(f)
}

// Whether b is, modulo 16, one of the n numbers from a on.
fn is_within_16(a: usize, n: usize, b: usize) -> bool
    requires { b ≤ 65536 }
    ensures { result ≡ within16 a n b }
{
    (b + 16 - a % 16) % 16 < n
}

// Rows that are kept modulo 16: a .. e and b .. f.
fn overlaps_16(a: usize, e: usize, b: usize, f: usize) -> bool
    requires { (e ≤ 65536) × (f ≤ 65536) }
    ensures { result ≡ overlap16 a e b f }
{
    a < e && b < f && (is_within_16(a, e - a, b) || is_within_16(b, f - b, a))
}

fn loads_meet(w: Window, v: Window) -> bool
    requires { (w.bottom.0 ≤ 65536) × (v.bottom.0 ≤ 65536) }
    ensures { result ≡ loads_meet w v }
{
    w.part == v.part
        && overlaps_16(w.top.0, w.bottom.0, v.top.0, v.bottom.0)
        && overlaps(w.left.0, w.right.0, v.left.0, v.right.0)
}

fn saves_meet(w: Strip, v: Strip) -> bool
    ensures { result ≡ saves_meet w v }
{
    overlaps(w.top.0, w.bottom.0, v.top.0, v.bottom.0)
        && overlaps(w.left.0, w.limit.0, v.left.0, v.limit.0)
}

// A load and a save write to two buffers.
pub fn do_meet(f: Frame, i: Job, j: Job) -> bool
    requires { (well_frame f ≡ true) × (well_area f.sizes i.area ≡ true) × (well_area f.sizes j.area ≡ true) }
    ensures { result ≡ meets f i j }
{
    let s = f.sizes;
    match (i.is_load(), j.is_load()) {
        (true, true) => loads_meet(i.area.window_in(s), j.area.window_in(s)),
        (false, false) => saves_meet(i.area.strip_in(s), j.area.strip_in(s)),
        _ => false,
    }
}
