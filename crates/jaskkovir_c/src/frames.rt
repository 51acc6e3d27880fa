// Frame setup, the check of a record and the listed sizes, on lent bytes.
ghost use Rattle.std.specs.Prelude.{◌≡◌, length};
ghost use Rattle.ground.specs.Script.{run};
ghost use Rattle.layout.specs.DescriptionBytes.{described};
ghost use Rattle.jaskkovir.specs.Framed.{init_lacks, init_answer, init_script, checked, listed_answer, listed_script};

// The answer is 0, and the record is laid over the start of frame, or a refusal, and then nothing is
// written: a caller can keep what it had.
#[unsafe(no_mangle)]
pub extern "C" fn jaskkovir_init_frame(
    width: usize,
    height: usize,
    sb128: u8,
    hint_bits: u32,
    current_hint: u32,
    hints: &[u8],
    hints_by_ref: &[u8],
    tile_rows: usize,
    tile_threads: usize,
    frame_threads: usize,
    temporal: u8,
    present: &[u8],
    frame: &mut [u8],
) -> u8
    ensures value { result ≡ init_answer
        (init_lacks (length hints.now) (length hints_by_ref.now) (length present.now) (length frame.old))
        (described width height sb128 hint_bits current_hint hints.now hints_by_ref.now
        tile_rows tile_threads frame_threads temporal)
        present.now }
    ensures frame_after { frame.new ≡ run (init_script
        (init_lacks (length hints.now) (length hints_by_ref.now) (length present.now) (length frame.old))
        (described width height sb128 hint_bits current_hint hints.now hints_by_ref.now
        tile_rows tile_threads frame_threads temporal)
        present.now) frame.old }
{
    jaskkovir::frames::jaskkovir_init_frame(
        width,
        height,
        sb128,
        hint_bits,
        current_hint,
        hints,
        hints_by_ref,
        tile_rows,
        tile_threads,
        frame_threads,
        temporal,
        present,
        frame,
    )
}

#[unsafe(no_mangle)]
pub extern "C" fn jaskkovir_check(frame: &[u8]) -> u8
    ensures { result ≡ checked frame.now }
{
    jaskkovir::frames::jaskkovir_check(frame)
}

// How much a caller has to lend: cells of a saved field, cells of the projection, records.
#[unsafe(no_mangle)]
pub extern "C" fn jaskkovir_listed_sizes(frame: &[u8], sizes: &mut [u8]) -> u8
    ensures value { result ≡ listed_answer frame.now (length sizes.old) }
    ensures sizes_after { sizes.new ≡ run (listed_script frame.now (length sizes.old)) sizes.old }
{
    jaskkovir::frames::jaskkovir_listed_sizes(frame, sizes)
}
