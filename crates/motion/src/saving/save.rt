// The save of a frame's motion, the Rust's `save_tmvs`.
ghost use Rattle.std.specs.Prelude.{◌≡◌, length};
ghost use Rattle.ground.specs.Script.{run};
ghost use Rattle.motion.specs.Code.Rooms.{Ready};
ghost use Rattle.motion.specs.saving.Save.{save_front, save_reads, save_answer, save_script};

use crate::saving::area::Area;
use crate::saving::walk::{check_row, row_entry, save_row};
use frame::record::Frame;
use rows::setup::is_pass;

// What is judged before any record is read, by the lengths of the lent buffers in bytes.
pub fn save_front(f: Frame, a: Area, pass: usize, nrecs: usize, nfield: usize) -> u8
    ensures { result ≡ save_front f a pass nrecs nfield }
{
    if !is_pass(pass) {
        return 12;
    }
    if !f.well_formed() {
        return 1;
    }
    let s = f.sizes;
    if !a.well_formed(s) {
        return 3;
    }
    if nfield < 5 * s.saved_cells() {
        return 4;
    }
    if nrecs < 12 * s.records() { 4 } else { 0 }
}

// The first row whose reads fail answers.
fn check_rows(recs: &[u8], f: Frame, a: Area, sby: usize, pass: usize) -> u8
    requires { Ready (length recs.now) f a }
    ensures { result ≡ save_reads recs.now f a sby pass }
{
    let s = f.sizes;
    let total = s.records();
    let w = a.strip_in(s);
    for y in w.top.0..w.bottom.0 {
        let answer = check_row(recs, total, w, row_entry(s, a, sby, pass, y));
        if answer != 0 {
            return answer;
        }
    }
    0
}

fn save_rows(recs: &[u8], f: Frame, a: Area, sby: usize, pass: usize, field: &mut [u8])
    requires { save_answer recs.now f a sby pass (length field.old) ≡ 0 }
    ensures { field.new ≡
        run (save_script recs.now f a sby pass (length field.old)) field.old }
{
    let s = f.sizes;
    let refs = f.refs;
    let total = s.records();
    let w = a.strip_in(s);
    for y in w.top.0..w.bottom.0 {
        let entry = row_entry(s, a, sby, pass, y);
        save_row(recs, total, refs, w, y, entry, field);
    }
}

// Saves the records of rows of cells to a field, from the table that superblock-row setup gives for
// the area's tile row, the superblock row sby and the pass. The answer is 0, or a refusal, and then
// nothing is written.
pub fn save_tmvs(f: Frame, a: Area, sby: usize, pass: usize, recs: &[u8], field: &mut [u8]) -> u8
    ensures value { result ≡ save_answer recs.now f a sby pass (length field.old) }
    ensures field_after { field.new ≡
        run (save_script recs.now f a sby pass (length field.old)) field.old }
{
    let front = save_front(f, a, pass, recs.len(), field.len());
    if front != 0 {
        return front;
    }
    let answer = check_rows(recs, f, a, sby, pass);
    if answer != 0 {
        return answer;
    }
    save_rows(recs, f, a, sby, pass, field);
    0
}
