// What superblock-row setup takes from a frame's sizes: the tile row's part of the buffers, the row
// table, the tile's bounds.
ghost use Rattle.std.specs.Prelude.{◌≡◌, true, ◌&&◌, ◌*◌, ◌<◌};
ghost use Rattle.frame.specs.extent.Sizes.{part_of, well_sizes};
ghost use Rattle.rows.specs.Table.{place_at};
ghost use Rattle.rows.specs.Setup.{pass_start, part_start, table_for, cut_to, ordered, in_frame, is_pass};

use crate::table::{RowEntry, entry_at};
use cells::pos::Pos4;
use frame::extent::sizes::Sizes;

// From start to before end.
#[derive(Clone, Copy)]
pub struct TileRange {
    pub start: Pos4,
    pub end: Pos4,
}

// A superblock row as a decoder comes to it: the tile's bounds, the superblock row's number, the
// tile row's, and pass 1 or 2: a second pass over a frame has records of its own where frames are
// decoded at once. Stays a number: C hands it over, and `rows_answer` refuses any other with 12.
#[derive(Clone, Copy)]
pub struct SbRow {
    pub col: TileRange,
    pub row: TileRange,
    pub sby: usize,
    pub tile: usize,
    pub pass: usize,
}

impl TileRange {
    fn is_ordered(self) -> bool
        ensures { result ≡ ordered self }
    {
        self.start.0 <= self.end.0
    }

    pub fn cut_to(self, most: Pos4) -> TileRange
        ensures { result ≡ cut_to most.0 self }
    {
        let end = Pos4(self.end.0.min(most.0));
        TileRange { end, ..self }
    }
}

pub fn is_pass(pass: usize) -> bool
    ensures { result ≡ is_pass pass }
{
    pass == 1 || pass == 2
}

pub fn in_frame(s: Sizes, tile: usize) -> bool
    ensures { result ≡ in_frame s tile }
{
    s.part(tile) < s.tile_rows
}

// The ranges are in order and the tile row is one of the frame's.
pub fn is_tile(s: Sizes, r: SbRow) -> bool
    ensures { result ≡ (ordered r.col && ordered r.row && in_frame s r.tile) }
{
    r.col.is_ordered() && r.row.is_ordered() && in_frame(s, r.tile)
}

fn pass_start(s: Sizes, pass: usize) -> usize
    requires { well_sizes s ≡ true }
    ensures { result ≡ pass_start s pass }
{
    if 1 < s.n_frame_threads && pass == 2 {
        70 * s.n_blocks
    } else {
        0
    }
}

// The first record of a tile row's part, in a pass.
pub fn part_start(s: Sizes, tile: usize, pass: usize) -> usize
    requires { (well_sizes s ≡ true) × (in_frame s tile ≡ true) }
    ensures { result ≡ part_start s (part_of s tile) pass }
{
    70 * (s.part(tile) * s.stride.0) + pass_start(s, pass)
}

// The first cell of a tile row's part of the projection.
pub fn proj_start(s: Sizes, tile: usize) -> usize
    requires { (well_sizes s ≡ true) × (in_frame s tile ≡ true) }
    ensures { result ≡ 16 * (part_of s tile * s.stride.0) }
{
    16 * (s.part(tile) * s.stride.0)
}

// Entry e of the table of a superblock row of a tile row, in a pass.
pub fn entry_for(s: Sizes, sby: usize, tile: usize, pass: usize, e: usize) -> RowEntry
    requires { (well_sizes s ≡ true) × (in_frame s tile ≡ true) × (e < 37) }
    ensures { result.at ≡ place_at (table_for s sby tile pass) e }
{
    entry_at(
        s.sbsz.0,
        sby % 2 == 1,
        part_start(s, tile, pass),
        s.stride.doubled().0,
        e,
    )
}
