// Save and load of motion, on lent bytes.
ghost use Rattle.std.specs.Prelude.{◌≡◌, ◌≤◌, length};
ghost use Rattle.std.specs.Bool.{OnFalse};
ghost use Rattle.ground.specs.Script.{run};
ghost use Rattle.motion.specs.loading.Fields.{lent};
ghost use Rattle.jaskkovir.specs.Moved.{area, saved_answer, saved_script, load_lacks, loaded_answer, loaded_script};

use crate::frames::PRESENT;
use cells::pos::Pos8;
use layout::frame_bytes::{FRAME, frame_at};
use layout::start::first_bytes;
use motion::loading::fields::{Lent, LentFields};
use motion::loading::load::load_tmvs;
use motion::loading::used::uses_of;
use motion::saving::area::Area;
use motion::saving::save::save_tmvs;

#[tactic(auto, unfolding(crate::specs::Moved::area))]
pub(crate) fn area_of(tile: usize, left: usize, right: usize, top: usize, bottom: usize) -> Area
    ensures { result ≡ area tile left right top bottom }
{
    Area {
        tile,
        left: Pos8(left),
        right: Pos8(right),
        top: Pos8(top),
        bottom: Pos8(bottom),
    }
}

// Saves the records of the area's rows of cells to a field. The answer is 0, or a refusal, and then
// nothing is written.
pub fn jaskkovir_save_tmvs(
    frame: &[u8],
    tile_row: usize,
    left: usize,
    right: usize,
    top: usize,
    bottom: usize,
    sby: usize,
    pass: usize,
    records: &[u8],
    saved: &mut [u8],
) -> u8
    ensures value { result ≡ saved_answer frame.now records.now
        (area tile_row left right top bottom) sby pass (length saved.old) }
    ensures saved_after { saved.new ≡ run (saved_script frame.now records.now
        (area tile_row left right top bottom) sby pass (length saved.old)) saved.old }
{
    if frame.len() < FRAME {
        return 4;
    }
    save_tmvs(
        frame_at(frame),
        area_of(tile_row, left, right, top, bottom),
        sby,
        pass,
        records,
        saved,
    )
}

// Lengths alone, so that a part that is too short is never read.
#[tactic(auto, unfolding(crate::specs::Moved::load_lacks))]
pub(crate) fn load_lacks(frame: usize, present: usize) -> bool
    ensures value { result ≡ load_lacks frame present }
    ensures room { OnFalse result ((109 ≤ frame) × (7 ≤ present)) }
{
    frame < FRAME || present < PRESENT
}

// Loads the motion of the area's rows of cells into the projection, from the fields that present
// says are lent. The answer is 0, or a refusal, and then nothing is written.
pub fn jaskkovir_load_tmvs<'a>(
    frame: &[u8],
    tile_row: usize,
    left: usize,
    right: usize,
    top: usize,
    bottom: usize,
    present: &[u8],
    f0: &'a [u8],
    f1: &'a [u8],
    f2: &'a [u8],
    f3: &'a [u8],
    f4: &'a [u8],
    f5: &'a [u8],
    f6: &'a [u8],
    proj: &mut [u8],
) -> u8
    ensures value { result ≡ loaded_answer frame.now present.now
        (lent f0.now f1.now f2.now f3.now f4.now f5.now f6.now)
        (area tile_row left right top bottom) (length proj.old) }
    ensures proj_after { proj.new ≡ run (loaded_script frame.now present.now
        (lent f0.now f1.now f2.now f3.now f4.now f5.now f6.now)
        (area tile_row left right top bottom) (length proj.old)) proj.old }
{
    if load_lacks(frame.len(), present.len()) {
        return 4;
    }
    let f = frame_at(frame);
    let us = uses_of(f);
    let lent = Lent {
        form: first_bytes(present),
    };
    let fields = LentFields {
        slices: [f0, f1, f2, f3, f4, f5, f6],
    };
    load_tmvs(
        f,
        area_of(tile_row, left, right, top, bottom),
        lent,
        fields.used(us),
        proj,
    )
}
