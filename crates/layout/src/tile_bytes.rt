// A tile in 168 bytes, 42 numbers of four bytes, the low byte first: the 37 entries of its table,
// the start of its part of the projection, column start and end, row start and end.
ghost use Rattle.std.specs.Prelude.{◌≡◌, true, ◌∷◌, [], ◌+◌, ◌*◌, ◌≤◌, ◌<◌, ◌^◌, min, length};
ghost use Rattle.ground.specs.Put.{put, copies};
ghost use Rattle.ground.specs.Little.{four_bytes, fours};
ghost use Rattle.frame.specs.extent.Sizes.{superblock};
ghost use Rattle.ground.specs.Tab.{tab};
ghost use Rattle.rows.specs.Table.{none, table_of, place_at};
ghost use Rattle.rows.specs.Setup.{tile_of, rows_answer};
ghost use Rattle.layout.specs.FrameBytes.{frame_at};
ghost use Rattle.layout.specs.TileBytes.{absent_mark, place_of, place_number, entry_in, range_at, tile_at, entry_bytes, entry_number, tile_bytes};

use crate::frame_bytes::sizes_at;
use cells::pos::Pos4;
use ground::read::size_at;
use ground::write::{put_size, put_sizes};
use rows::setup::{SbRow, TileRange, part_start, proj_start};
use rows::table::{RowEntry, offset};

pub const TILE: usize = 168;

// Stands for a row that is absent: no record has that number.
const ABSENT: usize = 4294967295;

fn place_of(n: usize) -> Option<usize>
    ensures { result ≡ place_of n }
{
    if n == ABSENT { None } else { Some(n) }
}

// One of the 37 entries.
fn entry_at(s: &[u8], e: usize) -> RowEntry
    requires { 4 * e + 4 ≤ length s.now }
    ensures { result ≡ entry_in s.now e }
{
    let at = place_of(size_at(s, 4 * e));
    RowEntry { at }
}

// An entry of the table; past it there is no row.
pub fn entry_in(s: &[u8], e: usize) -> RowEntry
    requires { 168 ≤ length s.now }
    ensures { result.at ≡ place_at (tile_at s.now).rows e }
{
    if e < 37 {
        return entry_at(s, e);
    }
    RowEntry { at: None }
}

// The first cell of the tile row's part of the projection.
pub fn proj_in(s: &[u8]) -> usize
    requires { 168 ≤ length s.now }
    ensures { result ≡ (tile_at s.now).proj }
{
    size_at(s, 148)
}

fn range_at(s: &[u8], start: usize, end: usize) -> TileRange
    requires { (start + 4 ≤ length s.now) × (end + 4 ≤ length s.now) }
    ensures { result ≡ range_at s.now start end }
{
    TileRange {
        start: Pos4(size_at(s, start)),
        end: Pos4(size_at(s, end)),
    }
}

pub fn columns_at(s: &[u8]) -> TileRange
    requires { 168 ≤ length s.now }
    ensures { result ≡ (tile_at s.now).col }
{
    range_at(s, 152, 156)
}

pub fn rows_at(s: &[u8]) -> TileRange
    requires { 168 ≤ length s.now }
    ensures { result ≡ (tile_at s.now).row }
{
    range_at(s, 160, 164)
}

fn number_of(p: Option<usize>) -> usize
    ensures { result ≡ place_number p }
{
    match p {
        None => ABSENT,
        Some(o) => o,
    }
}

fn put_entry(s: &mut [u8], e: usize, entry: RowEntry)
    requires { 4 * e + 4 ≤ length s.old }
    ensures { s.new ≡ put s.old (4 * e) (entry_bytes entry) }
{
    let at = entry.at;
    put_size(s, 4 * e, number_of(at));
}

// No row, in each of the 37 entries.
fn put_absent(s: &mut [u8])
    requires { 148 ≤ length s.old }
    ensures { s.new ≡ put s.old 0 (copies 37 (entry_bytes none)) }
{
    for e in 0..37 {
        put_entry(s, e, RowEntry { at: None });
    }
}

// The n entries from at on, for rows one behind the other.
fn put_rows(s: &mut [u8], at: usize, n: usize, first: usize, stride: usize)
    requires { (4 * (at + n) ≤ length s.old) × (first + n * stride < 2 ^ 64) }
    ensures { s.new ≡ put s.old (4 * at) (fours (tab (λ i. first + i * stride) 0 n)) }
{
    for i in 0..n {
        put_entry(
            s,
            at + i,
            RowEntry {
                at: Some(first + i * stride),
            },
        );
    }
}

// Three entries, every other one from at on, for rows that lie one step apart.
fn put_three(s: &mut [u8], at: usize, r: usize, step: usize)
    requires { (4 * at + 20 ≤ length s.old) × (r + 2 * step < 2 ^ 64) }
    ensures { s.new ≡
        put (put (put s.old (4 * at) (four_bytes r)) (4 * (at + 2)) (four_bytes (r + step))) (4 * (at + 4)) (four_bytes (r + 2 * step)) }
{
    let second = r + step;
    let third = r + 2 * step;
    put_entry(s, at, RowEntry { at: Some(r) });
    put_entry(s, at + 2, RowEntry { at: Some(second) });
    put_entry(s, at + 4, RowEntry { at: Some(third) });
}

// The table, written where it is to stand, and in parts: a rule that is asked for each entry takes
// three times as long. On an odd row the rows above have changed places with the last rows of the
// superblock row.
fn put_table(s: &mut [u8], sbsz: usize, odd: bool, first: usize, stride: usize)
    requires { (168 ≤ length s.old) × (superblock sbsz ≡ true) × (first + sbsz * stride + 2 * stride < 2 ^ 64) }
    ensures { s.new ≡ put s.old 0 (fours (tab (entry_number (table_of sbsz odd first stride)) 0 37)) }
{
    let off = offset(sbsz, odd);
    put_absent(s);
    put_rows(s, off + 5, sbsz, first, stride);
    let above = first + sbsz * stride;
    if odd {
        put_three(s, off + sbsz, above, stride);
        put_three(s, off, first + (sbsz - 5) * stride, 2 * stride);
        return;
    }
    put_three(s, off, above, stride);
}

// A start past four bytes becomes the largest number of four: no block lies behind either.
fn put_bounds(s: &mut [u8], proj: usize, col: TileRange, row: TileRange)
    requires { 168 ≤ length s.old }
    ensures { s.new ≡ put s.old 148
        (fours (proj ∷ min col.start.0 absent_mark ∷ col.end.0 ∷ min row.start.0 absent_mark ∷ row.end.0 ∷ [])) }
{
    let numbers = [
        proj,
        col.start.0.min(ABSENT),
        col.end.0,
        row.start.0.min(ABSENT),
        row.end.0,
    ];
    put_sizes(s, 148, &numbers);
}

// The tile of a superblock row over the start of s, for a frame record where it stands. No table is
// made elsewhere and copied.
pub fn put_tile(s: &mut [u8], frame: &[u8], r: SbRow)
    requires { (168 ≤ length s.old) × (109 ≤ length frame.now) × (rows_answer (frame_at frame.now) r ≡ 0) }
    ensures { s.new ≡ put s.old 0 (tile_bytes (tile_of (frame_at frame.now) r)) }
{
    let z = sizes_at(frame);
    put_table(
        s,
        z.sbsz.0,
        r.sby % 2 == 1,
        part_start(z, r.tile, r.pass),
        z.stride.doubled().0,
    );
    put_bounds(
        s,
        proj_start(z, r.tile),
        r.col.cut_to(z.iw4),
        r.row.cut_to(z.ih4),
    );
}
