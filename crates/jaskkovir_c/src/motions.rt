// Saving and loading of motion on lent bytes.
ghost use Rattle.std.specs.Prelude.{◌≡◌, length};
ghost use Rattle.ground.specs.Script.{run};
ghost use Rattle.motion.specs.loading.Fields.{lent};
ghost use Rattle.jaskkovir.specs.Moved.{area, saved_answer, saved_script, loaded_answer, loaded_script};

// Saves the records of the area's rows of cells to a field. The answer is 0, or a refusal, and then
// nothing is written.
#[unsafe(no_mangle)]
pub extern "C" fn jaskkovir_save_tmvs(
    frame: &[u8],
    tile_row: usize,
    left: usize,
    right: usize,
    top: usize,
    bottom: usize,
    sby: usize,
    pass: usize,
    records: &[u8],
    saved: &mut [u8],
) -> u8
    ensures value { result ≡ saved_answer frame.now records.now
        (area tile_row left right top bottom) sby pass (length saved.old) }
    ensures saved_after { saved.new ≡ run (saved_script frame.now records.now
        (area tile_row left right top bottom) sby pass (length saved.old)) saved.old }
{
    jaskkovir::motions::jaskkovir_save_tmvs(
        frame, tile_row, left, right, top, bottom, sby, pass, records, saved,
    )
}

// Loads the motion of the area's rows of cells into the projection, from the fields that present
// says are lent. The answer is 0, or a refusal, and then nothing is written.
#[unsafe(no_mangle)]
pub extern "C" fn jaskkovir_load_tmvs<'a>(
    frame: &[u8],
    tile_row: usize,
    left: usize,
    right: usize,
    top: usize,
    bottom: usize,
    present: &[u8],
    f0: &'a [u8],
    f1: &'a [u8],
    f2: &'a [u8],
    f3: &'a [u8],
    f4: &'a [u8],
    f5: &'a [u8],
    f6: &'a [u8],
    proj: &mut [u8],
) -> u8
    ensures value { result ≡ loaded_answer frame.now present.now
        (lent f0.now f1.now f2.now f3.now f4.now f5.now f6.now)
        (area tile_row left right top bottom) (length proj.old) }
    ensures proj_after { proj.new ≡ run (loaded_script frame.now present.now
        (lent f0.now f1.now f2.now f3.now f4.now f5.now f6.now)
        (area tile_row left right top bottom) (length proj.old)) proj.old }
{
    jaskkovir::motions::jaskkovir_load_tmvs(
        frame, tile_row, left, right, top, bottom, present, f0, f1, f2, f3, f4, f5, f6, proj,
    )
}
