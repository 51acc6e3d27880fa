// A splat on lent bytes. Frame and tile are read where they stand, and of the tile's 37 entries only
// those of the block's rows.
ghost use Rattle.std.specs.Prelude.{◌≡◌, ◌+◌, ◌/◌, ◌^◌, ◌≤◌, ◌<◌, length};
ghost use Rattle.ground.specs.Script.{run};
ghost use Rattle.rows.specs.splats.Splat.{first_entry, rows_read, splat_answer, row_patches, splat_script};
ghost use Rattle.layout.specs.FrameBytes.{frame_at};
ghost use Rattle.layout.specs.TileBytes.{tile_at};

use layout::frame_bytes::{sizes_at, well_frame};
use layout::tile_bytes::{columns_at, entry_in, rows_at};
use rows::splats::splat::{Splat, first_entry, is_placeable, read_row, write_row};

// The first row that lacks something answers. reach is how many records a row needs from its start
// on.
fn read_rows(tile: &[u8], total: usize, reach: usize, first: usize, n: usize) -> u8
    requires { (168 ≤ length tile.now) × (reach ≤ total) × (first + n < 2 ^ 64) }
    ensures { result ≡ rows_read (tile_at tile.now).rows total reach first n }
{
    for e in first..first + n {
        let a = read_row(entry_in(tile, e), total, reach);
        if a != 0 {
            return a;
        }
    }
    0
}

fn check_splat(frame: &[u8], tile: &[u8], b: Splat, len: usize) -> u8
    requires { (109 ≤ length frame.now) × (168 ≤ length tile.now) }
    ensures { result ≡ splat_answer (frame_at frame.now) (tile_at tile.now) b len }
{
    if !well_frame(frame) {
        return 1;
    }
    let s = sizes_at(frame);
    if !is_placeable(s, columns_at(tile), rows_at(tile), b) {
        return 10;
    }
    let total = s.records();
    if len < 12 * total {
        return 4;
    }
    read_rows(tile, total, b.x.0 + b.w.0, first_entry(b.y.0), b.h.0)
}

fn write_rows(records: &mut [u8], tile: &[u8], b: Splat)
    requires in_bounds { (168 ≤ length tile.now) × (b.h.0 ≤ 32) }
    requires h_value { rows_read (tile_at tile.now).rows (length records.old / 12) (b.x.0 + b.w.0) (first_entry b.y.0) b.h.0 ≡ 0 }
    ensures { records.new ≡ run
        (row_patches (tile_at tile.now).rows b.block b.x.0 b.w.0 (first_entry b.y.0) b.h.0)
        records.old }
{
    let first = first_entry(b.y.0);
    for e in first..first + b.h.0 {
        write_row(records, b.block, b.x.0, b.w.0, entry_in(tile, e));
    }
}

pub(crate) fn splat(frame: &[u8], tile: &[u8], b: Splat, records: &mut [u8]) -> u8
    requires { (109 ≤ length frame.now) × (168 ≤ length tile.now) }
    ensures value { result ≡ splat_answer (frame_at frame.now) (tile_at tile.now) b (length records.old) }
    ensures records_after { records.new ≡ run
        (splat_script (frame_at frame.now) (tile_at tile.now) b (length records.old))
        records.old }
{
    let answer = check_splat(frame, tile, b, records.len());
    if answer != 0 {
        return answer;
    }
    write_rows(records, tile, b);
    answer
}
