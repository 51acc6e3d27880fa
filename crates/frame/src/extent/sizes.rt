// The sizes of a frame, and of the buffers that go with it.
ghost use Rattle.std.specs.Prelude.{◌≡◌, true, ◌≤◌};
ghost use Rattle.frame.specs.extent.Sizes.{most_samples, one_to, limits, eighths, stride_of, parts_of, sizes_of, superblock, follows, well_sizes, saved_cells, projected_cells, passes_of, records, part_of};

use cells::pos::{Pos4, Pos8};

// The largest width and height, in samples.
pub const MOST_SAMPLES: usize = 16384;

pub const MOST_TILE_ROWS: usize = 64;

pub const MOST_THREADS: usize = 255;

// stride is the length of a row of cells in the saved field and in the projection; a row of records
// has twice as many. n_blocks is the length of one row in all parts of the projection.
#[derive(Clone, Copy)]
pub struct Sizes {
    pub width: usize,
    pub height: usize,
    pub iw4: Pos4,
    pub ih4: Pos4,
    pub iw8: Pos8,
    pub ih8: Pos8,
    pub sbsz: Pos4,
    pub stride: Pos8,
    pub tile_rows: usize,
    pub n_blocks: usize,
    pub n_tile_threads: usize,
    pub n_frame_threads: usize,
}

// n lies in 1 .. most.
pub fn one_to(most: usize, n: usize) -> bool
    ensures { result ≡ one_to most n }
{
    1 <= n && n <= most
}

pub fn limited(width: usize, height: usize, rows: usize, tiles: usize, frames: usize) -> bool
    ensures { result ≡ limits width height rows tiles frames }
{
    one_to(MOST_SAMPLES, width)
        && one_to(MOST_SAMPLES, height)
        && one_to(MOST_TILE_ROWS, rows)
        && one_to(MOST_THREADS, tiles)
        && one_to(MOST_THREADS, frames)
}

// Samples in cells.
fn in_eighths(n: usize) -> Pos8
    requires { n ≤ most_samples }
    ensures { result.0 ≡ eighths n }
{
    Pos8((n + 7) / 8)
}

fn stride_of(width: usize) -> Pos8
    requires { width ≤ most_samples }
    ensures { result.0 ≡ stride_of width }
{
    Pos8((width + 127) / 128 * 128 / 8)
}

fn parts_of(rows: usize, tiles: usize) -> usize
    ensures { result ≡ parts_of rows tiles }
{
    if 1 < tiles { rows } else { 1 }
}

// The sizes that follow from the numbers of a description.
pub fn sizes_of(
    width: usize,
    height: usize,
    sbsz: Pos4,
    rows: usize,
    tiles: usize,
    frames: usize,
) -> Sizes
    requires { limits width height rows tiles frames ≡ true }
    ensures { result ≡ sizes_of width height sbsz.0 rows tiles frames }
{
    let iw8 = in_eighths(width);
    let ih8 = in_eighths(height);
    let stride = stride_of(width);
    Sizes {
        width,
        height,
        iw4: iw8.doubled(),
        ih4: ih8.doubled(),
        iw8,
        ih8,
        sbsz,
        stride,
        tile_rows: rows,
        n_blocks: stride.0 * parts_of(rows, tiles),
        n_tile_threads: tiles,
        n_frame_threads: frames,
    }
}

fn is_superblock(sbsz: Pos4) -> bool
    ensures { result ≡ superblock sbsz.0 }
{
    sbsz.0 == 16 || sbsz.0 == 32
}

impl Sizes {
    // Whether the sizes are those that setup would give.
    pub fn well_formed(self) -> bool
        ensures { result ≡ well_sizes self }
    {
        limited(
            self.width,
            self.height,
            self.tile_rows,
            self.n_tile_threads,
            self.n_frame_threads,
        ) && is_superblock(self.sbsz)
            && self.follow()
    }

    fn follow(self) -> bool
        requires { limits self.width self.height self.tile_rows self.n_tile_threads self.n_frame_threads ≡ true }
        ensures { result ≡ follows self }
    {
        let w = in_eighths(self.width);
        let h = in_eighths(self.height);
        let stride = stride_of(self.width);
        self.iw8.0 == w.0
            && self.ih8.0 == h.0
            && self.iw4.0 == w.doubled().0
            && self.ih4.0 == h.doubled().0
            && self.stride.0 == stride.0
            && self.n_blocks == stride.0 * parts_of(self.tile_rows, self.n_tile_threads)
    }

    // How many cells a saved field has.
    pub fn saved_cells(self) -> usize
        requires { well_sizes self ≡ true }
        ensures { result ≡ saved_cells self }
    {
        self.stride.0 * self.ih8.0
    }

    // How many cells the projection has.
    pub fn projected_cells(self) -> usize
        requires { well_sizes self ≡ true }
        ensures { result ≡ projected_cells self }
    {
        16 * self.n_blocks
    }

    // How many records there are.
    pub fn records(self) -> usize
        requires { well_sizes self ≡ true }
        ensures { result ≡ records self }
    {
        70 * self.n_blocks * passes(self.n_frame_threads) + 1
    }

    // The part that a tile row has in the buffers.
    pub fn part(self, row: usize) -> usize
        ensures { result ≡ part_of self row }
    {
        if self.n_tile_threads == 1 { 0 } else { row }
    }
}

fn passes(frames: usize) -> usize
    ensures { result ≡ passes_of frames }
{
    if 1 < frames { 2 } else { 1 }
}
