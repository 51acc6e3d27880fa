// A job's row of work: what step k reads, and what it writes.
ghost use Rattle.std.specs.Prelude.{◌≡◌, ◌+◌, ◌*◌, ◌≤◌, ◌<◌, length};
ghost use Rattle.ground.specs.Script.{run};
ghost use Rattle.frame.specs.extent.Sizes.{records, saved_cells};
ghost use Rattle.motion.specs.saving.Area.{bottom_of, strip_of, window_of};
ghost use Rattle.motion.specs.Code.Rooms.{Ready};
ghost use Rattle.motion.specs.saving.Save.{save_table, row_read, row_patch};
ghost use Rattle.motion.specs.loading.Fields.{lengths_of};
ghost use Rattle.motion.specs.loading.Load.{step_read, step_script, steps_of};
ghost use Rattle.motion.specs.loading.Used.{uses_of};
ghost use Rattle.jobs.specs.Inputs.{used_fields, used_sources};
ghost use Rattle.jobs.specs.job.Job.{count_of};
ghost use Rattle.jobs.specs.Code.Step.{Loads, Able, Room};
ghost use Rattle.jobs.specs.work.Work.{work_read, work_script, on_proj, on_saved};

use crate::inputs::Inputs;
use crate::job::record::Job;
use motion::loading::step::{check_step, load_step};
use motion::loading::used::uses_of;
use motion::saving::area::Area;
use motion::saving::walk::{check_row, row_entry, save_row};

fn check_load(inputs: &Inputs, a: Area, k: usize) -> u8
    requires loads { Loads inputs.now.frame a (lengths_of (used_fields inputs.now)) }
    requires k_bound { k < steps_of (window_of inputs.now.frame.sizes a) (uses_of inputs.now.frame) }
    ensures { result ≡ step_read (used_sources inputs.now) (window_of inputs.now.frame.sizes a) k }
{
    let window = a.window_in(inputs.frame.sizes);
    check_step(window, k, inputs.fields)
}

fn check_save(inputs: &Inputs, a: Area, sby: usize, pass: usize, y: usize) -> u8
    requires { Ready (length inputs.now.recs.now) inputs.now.frame a }
    ensures { result ≡ row_read inputs.now.recs.now
        (records inputs.now.frame.sizes) (save_table inputs.now.frame a sby pass)
        (strip_of inputs.now.frame.sizes a) y }
{
    let s = inputs.frame.sizes;
    check_row(
        inputs.recs,
        s.records(),
        a.strip_in(s),
        row_entry(s, a, sby, pass, y),
    )
}

// What step k of a job reads.
pub fn check_work(inputs: &Inputs, job: Job, k: usize) -> u8
    requires able { Able inputs.now.frame job (lengths_of (used_fields inputs.now)) (length inputs.now.recs.now) }
    requires k_bound { k < count_of inputs.now.frame job }
    ensures { result ≡ work_read inputs.now.frame (used_sources inputs.now) inputs.now.recs.now job k }
{
    let area = job.area;
    if job.is_load() {
        check_load(inputs, area, k)
    } else {
        check_save(inputs, area, job.sby, job.pass, area.top.0 + k)
    }
}

fn do_load(inputs: &Inputs, a: Area, k: usize, proj: &mut [u8])
    requires loads { Loads inputs.now.frame a (lengths_of (used_fields inputs.now)) }
    requires a_in_bounds { 5 * ((window_of inputs.now.frame.sizes a).part
        + 16 * (window_of inputs.now.frame.sizes a).stride.0) ≤ length proj.old }
    requires k_bound { k < steps_of (window_of inputs.now.frame.sizes a) (uses_of inputs.now.frame) }
    requires k_value { step_read (used_sources inputs.now) (window_of inputs.now.frame.sizes a) k ≡ 0 }
    ensures { proj.new ≡ run
        (step_script (used_sources inputs.now) (window_of inputs.now.frame.sizes a) (uses_of inputs.now.frame) k)
        proj.old }
{
    load_step(
        a.window_in(inputs.frame.sizes),
        uses_of(inputs.frame),
        k,
        inputs.fields,
        proj,
    );
}

fn do_save(inputs: &Inputs, a: Area, sby: usize, pass: usize, y: usize, saved: &mut [u8])
    requires ready { Ready (length inputs.now.recs.now) inputs.now.frame a
        × (5 * saved_cells inputs.now.frame.sizes ≤ length saved.old)
        × (y < bottom_of inputs.now.frame.sizes a) }
    requires y_value { row_read inputs.now.recs.now
        (records inputs.now.frame.sizes) (save_table inputs.now.frame a sby pass)
        (strip_of inputs.now.frame.sizes a) y ≡ 0 }
    ensures { saved.new ≡ run
        (row_patch inputs.now.recs.now (save_table inputs.now.frame a sby pass) inputs.now.frame.refs
        (strip_of inputs.now.frame.sizes a) y)
        saved.old }
{
    let s = inputs.frame.sizes;
    save_row(
        inputs.recs,
        s.records(),
        inputs.frame.refs,
        a.strip_in(s),
        y,
        row_entry(s, a, sby, pass, y),
        saved,
    );
}

// Step k of a job, whose reads have passed.
pub fn do_work(inputs: &Inputs, job: Job, k: usize, proj: &mut [u8], saved: &mut [u8])
    requires able { Able inputs.now.frame job (lengths_of (used_fields inputs.now)) (length inputs.now.recs.now) }
    requires room { Room inputs.now.frame job (length proj.old) (length saved.old)
        × (k < count_of inputs.now.frame job) }
    requires k_value { work_read inputs.now.frame (used_sources inputs.now) inputs.now.recs.now job k ≡ 0 }
    ensures proj_after { proj.new ≡ run
        (on_proj job (work_script inputs.now.frame (used_sources inputs.now) inputs.now.recs.now job k))
        proj.old }
    ensures saved_after { saved.new ≡ run
        (on_saved job (work_script inputs.now.frame (used_sources inputs.now) inputs.now.recs.now job k))
        saved.old }
{
    let area = job.area;
    if job.is_load() {
        do_load(inputs, area, k, proj);
    } else {
        do_save(inputs, area, job.sby, job.pass, area.top.0 + k, saved);
    }
}
