// What a splat asks of a block, and what it reads and writes of a row of records.
ghost use Rattle.std.specs.Prelude.{◌≡◌, true, ◌&&◌, ◌+◌, ◌*◌, ◌/◌, ◌≤◌, leb, length};
ghost use Rattle.ground.specs.Pick.{pick};
ghost use Rattle.ground.specs.Put.{put, copies};
ghost use Rattle.ground.specs.Script.{run};
ghost use Rattle.cells.specs.Block.{block_bytes, well_block};
ghost use Rattle.frame.specs.extent.Sizes.{well_sizes};
ghost use Rattle.rows.specs.splats.Splat.{holds, spans, first_entry, row_read, row_patch};

use crate::setup::TileRange;
use crate::table::RowEntry;
use cells::block::Block;
use cells::pos::Pos4;
use frame::extent::sizes::{Sizes, one_to};

// A record and the place that it is laid over: y and x of the block's first record, its width and
// height.
#[derive(Clone, Copy)]
pub struct Splat {
    pub block: Block,
    pub y: Pos4,
    pub x: Pos4,
    pub w: Pos4,
    pub h: Pos4,
}

// A block starts within its tile, and the tile ends within the frame.
pub fn is_in(most: Pos4, r: TileRange, p: Pos4) -> bool
    ensures { result ≡ holds most.0 r p.0 }
{
    r.start.0 <= p.0 && p.0 < r.end.0 && r.end.0 <= most.0
}

fn has_spans(s: Sizes, b: Splat) -> bool
    requires { well_sizes s ≡ true }
    ensures { result ≡ spans s b }
{
    let w = b.w.0;
    let row = s.stride.doubled().0;
    one_to(32, w) && one_to(32, b.h.0) && w <= row && b.x.0 <= row - w
}

// The tile's columns and rows are all that is asked of it, so that its table isn't handed over.
pub fn is_placeable(s: Sizes, col: TileRange, row: TileRange, b: Splat) -> bool
    requires { well_sizes s ≡ true }
    ensures { result ≡ (holds s.iw4.0 col b.x.0 && holds s.ih4.0 row b.y.0 && spans s b && well_block b.block) }
{
    is_in(s.iw4, col, b.x) && is_in(s.ih4, row, b.y) && has_spans(s, b) && b.block.well_formed()
}

pub fn first_entry(y: usize) -> usize
    ensures { result ≡ first_entry y }
{
    y % 32 + 5
}

// 4 where a row that starts at record o lacks some of the records that it needs.
fn read_at(o: usize, total: usize, reach: usize) -> u8
    requires { reach ≤ total }
    ensures { result ≡ pick (leb (o + reach) total) 0 4 }
{
    if o <= total - reach { 0 } else { 4 }
}

pub fn read_row(entry: RowEntry, total: usize, reach: usize) -> u8
    requires { reach ≤ total }
    ensures { result ≡ row_read total reach entry.at }
{
    match entry.at {
        None => 6,
        Some(o) => read_at(o, total, reach),
    }
}

// w copies of a record from number at on.
fn write_copies(records: &mut [u8], block: Block, at: usize, w: usize)
    requires { 12 * (at + w) ≤ length records.old }
    ensures { records.new ≡ put records.old (12 * at) (copies w (block_bytes block)) }
{
    for i in at..at + w {
        block.write(records, i);
    }
}

pub fn write_row(records: &mut [u8], block: Block, x: usize, w: usize, entry: RowEntry)
    requires { row_read (length records.old / 12) (x + w) entry.at ≡ 0 }
    ensures { records.new ≡ run (row_patch block x w entry.at) records.old }
{
    if let Some(o) = entry.at {
        write_copies(records, block, o + x, w);
    }
}
