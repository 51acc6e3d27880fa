// The load of a projection, the Rust's `load_tmvs`.
ghost use Rattle.std.specs.Prelude.{◌≡◌, ◌+◌, ◌*◌, ◌≤◌, length};
ghost use Rattle.ground.specs.Script.{run};
ghost use Rattle.ground.specs.Span.{span, first_of};
ghost use Rattle.motion.specs.loading.Fields.{all_used, lengths_of, cells_of};
ghost use Rattle.motion.specs.loading.Load.{steps_of, step_script, step_read, load_front, load_answer, load_script};
ghost use Rattle.motion.specs.Code.Needs.{Fields};

use crate::loading::fields::{Lent, UsedFields, are_lent, are_long};
use crate::loading::step::{check_step, load_step, steps_of};
use crate::loading::used::{Uses, uses_of};
use crate::saving::area::{Area, Window};
use frame::record::Frame;

// What is judged before any cell is read, by the lengths of the lent buffers in bytes.
pub fn load_front(f: Frame, a: Area, lent: Lent, lengths: [usize; 3], nproj: usize) -> u8
    ensures { result ≡ load_front f a lent lengths nproj }
{
    if !f.well_formed() {
        return 1;
    }
    if !lent.well_formed() {
        return 1;
    }
    let s = f.sizes;
    if !a.well_formed(s) {
        return 3;
    }
    if nproj < 5 * s.projected_cells() {
        return 4;
    }
    let us = uses_of(f);
    if !are_long(5 * s.saved_cells(), us, lent, lengths) {
        return 4;
    }
    if are_lent(us, lent) { 0 } else { 5 }
}

fn check_steps(w: Window, us: Uses, fields: UsedFields<'_>) -> u8
    requires { Fields (lengths_of (all_used fields)) w us }
    ensures { result ≡ first_of
        (step_read (cells_of (all_used fields.entry) w.stride.0) w) 0 (steps_of w us) }
{
    for k in 0..steps_of(w, us) {
        let answer = check_step(w, k, fields);
        if answer != 0 {
            return answer;
        }
    }
    0
}

fn load_steps(w: Window, us: Uses, fields: UsedFields<'_>, proj: &mut [u8])
    requires fields { Fields (lengths_of (all_used fields)) w us }
    requires stride_in_bounds { 5 * (w.part + 16 * w.stride.0) ≤ length proj.old }
    requires us_value { first_of (step_read (cells_of (all_used fields) w.stride.0) w) 0 (steps_of w us) ≡ 0 }
    ensures { proj.new ≡ run
        (span (step_script (cells_of (all_used fields.entry) w.stride.0) w us) 0 (steps_of w us))
        proj.old }
{
    for k in 0..steps_of(w, us) {
        load_step(w, us, k, fields, proj);
    }
}

// Loads the motion of rows of cells into the projection, from the saved fields of the references
// that the frame uses. The answer is 0, or a refusal, and then nothing is written.
pub fn load_tmvs(f: Frame, a: Area, lent: Lent, fields: UsedFields<'_>, proj: &mut [u8]) -> u8
    ensures value { result ≡ load_answer (all_used fields.entry) f a lent (length proj.old) }
    ensures proj_after { proj.new ≡ run (load_script (all_used fields.entry) f a lent (length proj.old)) proj.old }
{
    let front = load_front(f, a, lent, fields.lengths(), proj.len());
    if front != 0 {
        return front;
    }
    let w = a.window_in(f.sizes);
    let us = uses_of(f);
    let answer = check_steps(w, us, fields);
    if answer != 0 {
        return answer;
    }
    load_steps(w, us, fields, proj);
    0
}
