// Superblock-row setup and splat, the Rust's `rav1d_refmvs_tile_sbrow_init` and `splat_mv`, on lent
// bytes.
ghost use Rattle.std.specs.Prelude.{◌≡◌, ◌≤◌, length};
ghost use Rattle.std.specs.Bool.{OnFalse};
ghost use Rattle.ground.specs.Answer.{accepted};
ghost use Rattle.ground.specs.Script.{run};
ghost use Rattle.rows.specs.Setup.{tile_of, rows_answer};
ghost use Rattle.layout.specs.FrameBytes.{frame_at};
ghost use Rattle.layout.specs.TileBytes.{tile_bytes};
ghost use Rattle.jaskkovir.specs.Framed.{whole};
ghost use Rattle.jaskkovir.specs.Tiled.{sb_row, row_init_answer, row_init_script, splat_of, splat_lacks, laid_answer, laid_script};

use crate::blocks::splat;
use cells::block::Block;
use cells::pos::Pos4;
use layout::frame_bytes::{FRAME, sizes_at, well_frame};
use layout::tile_bytes::{TILE, put_tile};
use rows::setup::{SbRow, TileRange, is_pass, is_tile};
use rows::splats::splat::Splat;

const BLOCK: usize = 12;

#[tactic(auto, unfolding(rows::specs::Setup::rows_answer, layout::specs::FrameBytes::frame_at))]
fn check_row(frame: &[u8], r: SbRow) -> u8
    requires { 109 ≤ length frame.now }
    ensures { result ≡ rows_answer (frame_at frame.now) r }
{
    if !is_pass(r.pass) {
        return 12;
    }
    if !well_frame(frame) {
        return 1;
    }
    if is_tile(sizes_at(frame), r) { 0 } else { 3 }
}

fn set_row(frame: &[u8], r: SbRow, tile: &mut [u8]) -> u8
    requires { (109 ≤ length frame.now) × (168 ≤ length tile.old) }
    ensures value { result ≡ rows_answer (frame_at frame.now) r }
    ensures tile_after { tile.new ≡ run
        (accepted (rows_answer (frame_at frame.now) r) (whole (tile_bytes (tile_of (frame_at frame.now) r))))
        tile.old }
{
    let answer = check_row(frame, r);
    if answer != 0 {
        return answer;
    }
    put_tile(tile, frame, r);
    answer
}

// The answer is 0, and the tile is laid over the start of the part lent for it, or a refusal, and
// then nothing is written.
pub fn jaskkovir_tile_sbrow_init(
    frame: &[u8],
    col_start: usize,
    col_end: usize,
    row_start: usize,
    row_end: usize,
    sby: usize,
    tile_row: usize,
    pass: usize,
    tile: &mut [u8],
) -> u8
    ensures value { result ≡ row_init_answer frame.now
        (sb_row col_start col_end row_start row_end sby tile_row pass) (length tile.old) }
    ensures tile_after { tile.new ≡ run (row_init_script frame.now
        (sb_row col_start col_end row_start row_end sby tile_row pass) (length tile.old)) tile.old }
{
    if frame.len() < FRAME {
        return 4;
    }
    if tile.len() < TILE {
        return 4;
    }
    let r = SbRow {
        col: TileRange {
            start: Pos4(col_start),
            end: Pos4(col_end),
        },
        row: TileRange {
            start: Pos4(row_start),
            end: Pos4(row_end),
        },
        sby,
        tile: tile_row,
        pass,
    };
    set_row(frame, r, tile)
}

// Lengths alone, so that a part that is too short is never read.
#[tactic(auto, unfolding(crate::specs::Tiled::splat_lacks))]
fn splat_lacks(frame: usize, tile: usize, block: usize) -> bool
    ensures value { result ≡ splat_lacks frame tile block }
    ensures room { OnFalse result ((109 ≤ frame) × (168 ≤ tile) × (12 ≤ block)) }
{
    frame < FRAME || tile < TILE || block < BLOCK
}

#[tactic(auto, unfolding(crate::specs::Tiled::splat_of))]
fn splat_of(block: &[u8], y: usize, x: usize, w: usize, h: usize) -> Splat
    requires { 12 ≤ length block.now }
    ensures { result ≡ splat_of block.now y x w h }
{
    let read = Block::read(block, 0);
    Splat {
        block: read,
        y: Pos4(y),
        x: Pos4(x),
        w: Pos4(w),
        h: Pos4(h),
    }
}

// Lays the record over every place that the block covers. The answer is 0, or a refusal, and then
// nothing is written.
pub fn jaskkovir_splat_mv(
    frame: &[u8],
    tile: &[u8],
    block: &[u8],
    y: usize,
    x: usize,
    w: usize,
    h: usize,
    records: &mut [u8],
) -> u8
    ensures value { result ≡ laid_answer frame.now tile.now block.now y x w h (length records.old) }
    ensures records_after { records.new ≡ run
        (laid_script frame.now tile.now block.now y x w h (length records.old))
        records.old }
{
    if splat_lacks(frame.len(), tile.len(), block.len()) {
        return 4;
    }
    splat(frame, tile, splat_of(block, y, x, w, h), records)
}
