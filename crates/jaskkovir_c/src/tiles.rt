// Superblock-row setup and splat, on lent bytes.
ghost use Rattle.std.specs.Prelude.{◌≡◌, length};
ghost use Rattle.ground.specs.Script.{run};
ghost use Rattle.jaskkovir.specs.Tiled.{sb_row, row_init_answer, row_init_script, laid_answer, laid_script};

// The answer is 0, and the tile is laid over the start of the part lent for it, or a refusal, and
// then nothing is written.
#[unsafe(no_mangle)]
pub extern "C" fn jaskkovir_tile_sbrow_init(
    frame: &[u8],
    col_start: usize,
    col_end: usize,
    row_start: usize,
    row_end: usize,
    sby: usize,
    tile_row: usize,
    pass: usize,
    tile: &mut [u8],
) -> u8
    ensures value { result ≡ row_init_answer frame.now
        (sb_row col_start col_end row_start row_end sby tile_row pass) (length tile.old) }
    ensures tile_after { tile.new ≡ run (row_init_script frame.now
        (sb_row col_start col_end row_start row_end sby tile_row pass) (length tile.old)) tile.old }
{
    jaskkovir::tiles::jaskkovir_tile_sbrow_init(
        frame, col_start, col_end, row_start, row_end, sby, tile_row, pass, tile,
    )
}

// Lays the record over every place that the block covers. The answer is 0, or a refusal, and then
// nothing is written.
#[unsafe(no_mangle)]
pub extern "C" fn jaskkovir_splat_mv(
    frame: &[u8],
    tile: &[u8],
    block: &[u8],
    y: usize,
    x: usize,
    w: usize,
    h: usize,
    records: &mut [u8],
) -> u8
    ensures value { result ≡ laid_answer frame.now tile.now block.now y x w h (length records.old) }
    ensures records_after { records.new ≡ run
        (laid_script frame.now tile.now block.now y x w h (length records.old))
        records.old }
{
    jaskkovir::tiles::jaskkovir_splat_mv(frame, tile, block, y, x, w, h, records)
}
