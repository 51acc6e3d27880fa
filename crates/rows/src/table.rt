// The row table of a superblock row: 37 entries, each the place of a row of records or absent.
// Entry e is row e - 5, counted from a multiple of 32 rows: the three rows above that a search looks
// at stand in entries 0, 2 and 4 of the superblock row's own part of the table. Here is its rule,
// which gives one entry; a tile has all of them in its bytes.
ghost use Rattle.std.specs.Prelude.{◌≡◌, ◌+◌, ◌*◌, ◌<◌, ◌≤◌, ◌^◌, true};
ghost use Rattle.frame.specs.extent.Sizes.{superblock};
ghost use Rattle.rows.specs.Table as tables;
ghost use Rattle.rows.specs.Table.{row_of, offset_of, row_at, entry_at};

// The number of a row's first record, none where the row is absent.
// Keeps its struct: `none`, `there`, `table_of` and `Tile` of specs/ speak of it.
#[derive(Clone, Copy)]
pub struct RowEntry {
    pub at: Option<usize>,
}

// Where the superblock row's own part of the table starts: an odd row of small superblocks has the
// lower half.
pub fn offset(sbsz: usize, odd: bool) -> usize
    ensures { result ≡ offset_of sbsz odd }
{
    if odd && sbsz == 16 { 16 } else { 0 }
}

// Line e of that part, as the number of a row in the buffer: behind the superblock row's own rows
// lie the three above.
fn row_of(sbsz: usize, e: usize) -> Option<usize>
    requires { sbsz ≤ 32 }
    ensures { result ≡ row_of sbsz e }
{
    match e {
        0 => Some(sbsz),
        2 => Some(sbsz + 1),
        4 => Some(sbsz + 2),
        _ if 5 <= e && e < sbsz + 5 => Some(e - 5),
        _ => None,
    }
}

// The last rows of one superblock row are the rows above of the next: on an odd row their lines have
// changed places.
fn partner(sbsz: usize, e: usize) -> usize
    requires { sbsz ≤ 32 }
    ensures { result ≡ tables.partner sbsz e }
{
    match e {
        0 => sbsz,
        2 => sbsz + 2,
        4 => sbsz + 4,
        _ if e == sbsz => 0,
        _ if e == sbsz + 2 => 2,
        _ if e == sbsz + 4 => 4,
        _ => e,
    }
}

fn row_at(sbsz: usize, odd: bool, e: usize) -> Option<usize>
    requires { sbsz ≤ 32 }
    ensures { result ≡ row_at sbsz odd e }
{
    let line = e.checked_sub(offset(sbsz, odd))?;
    row_of(sbsz, if odd { partner(sbsz, line) } else { line })
}

// Entry e, where the rows of the buffer start at record first and lie stride records apart.
pub(crate) fn entry_at(sbsz: usize, odd: bool, first: usize, stride: usize, e: usize) -> RowEntry
    requires { (superblock sbsz ≡ true) × (first + sbsz * stride + 2 * stride < 2 ^ 64) }
    ensures { result ≡ entry_at sbsz odd first stride e }
{
    let at = row_at(sbsz, odd, e).map(|j| first + j * stride);
    RowEntry { at }
}
