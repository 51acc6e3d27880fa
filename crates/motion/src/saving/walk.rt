// A row of a save: the row's blocks from left to right, each read once at its first cell.
ghost use Rattle.std.specs.Prelude.{◌≡◌, true, ◌+◌, ◌-◌, ◌*◌, ◌/◌, ◌≤◌, ◌<◌, length};
ghost use Rattle.ground.specs.Put.{put, copies};
ghost use Rattle.ground.specs.Script.{run};
ghost use Rattle.cells.specs.Cell.{cell_bytes};
ghost use Rattle.frame.specs.extent.Sizes.{well_sizes};
ghost use Rattle.rows.specs.Table.{place_at};
ghost use Rattle.rows.specs.Setup.{table_for};
ghost use Rattle.motion.specs.saving.Area.{well_area};
ghost use Rattle.motion.specs.Code.Rooms.{RowRoom};
ghost use Rattle.motion.specs.saving.Save.{record_of, cells_wide, block_on, wide_on, walk_read, walk_bytes, entry_of, place_read, strip_read, place_patch};
ghost use Rattle.motion.specs.Code.Walk.{record_read};

use crate::saving::area::{Area, Strip};
use crate::saving::choose::{Width, choose, hint_place, narrowest, width_after};
use cells::block::Block;
use cells::cell::Cell;
use cells::pos::Pos8;
use frame::extent::sizes::Sizes;
use frame::hints::distances::RefHint;
use rows::setup::entry_for;
use rows::table::RowEntry;

// How many cells have a listed record, in a row of records that starts at number o.
fn listed_cells(total: usize, o: usize) -> usize
    ensures { result ≡ (total - o) / 2 }
{
    total.saturating_sub(o) / 2
}

// The record that cell x is saved from, in a row of records that starts at number o.
fn block_of(recs: &[u8], o: usize, x: usize) -> Block
    requires { (x ≤ 65536) × (12 * record_of o x + 12 ≤ length recs.now) }
    ensures { result ≡ block_on recs.now o x }
{
    Block::read(recs, o + Pos8(x).odd().0)
}

// Whether the record that cell x is saved from is one of the listed, and well formed. The first n
// cells have a listed record.
#[tactic(auto, unfolding(crate::specs::Code::Walk::record_read))]
fn check_record(recs: &[u8], n: usize, o: usize, x: usize) -> u8
    requires { (x ≤ 65536) × (x < n → 12 * record_of o x + 12 ≤ length recs.now) }
    ensures { result ≡ record_read recs.now n o x }
{
    if n <= x {
        return 4;
    }
    let b = block_of(recs, o, x);
    if b.well_formed() { 0 } else { 8 }
}

fn width_at(recs: &[u8], o: usize, x: usize, last: Width) -> Width
    requires { (x ≤ 65536) × (12 * record_of o x + 12 ≤ length recs.now) × (last.cells ≡ cells_wide last.code) }
    ensures { (result.cells ≡ wide_on recs.now o x) × (result.cells ≡ cells_wide result.code) × (1 ≤ result.cells) × (result.cells ≤ 16) }
{
    let b = block_of(recs, o, x);
    width_after(last, b.bs)
}

// The first read that fails answers. total is how many records are listed.
fn check_walk(recs: &[u8], total: usize, o: usize, w: Strip) -> u8
    requires { (w.end.0 ≤ 65536) × (12 * total ≤ length recs.now) }
    ensures { result ≡ walk_read recs.now total o w.end.0 w.limit.0 (w.end.0 - w.left.0) w.left.0 }
{
    let n = listed_cells(total, o);
    let mut x = w.left.0;
    let mut last = narrowest();
    // Each turn goes on by the width of the block that it read.
    while x < w.end.0 {
        let answer = check_record(recs, n, o, x);
        if answer != 0 {
            return answer;
        }
        last = width_at(recs, o, x, last);
        x += last.cells;
        if w.limit.0 < x {
            return 9;
        }
    }
    0
}

// n times the cell from number at on.
fn fill_cells(field: &mut [u8], c: Cell, at: usize, n: usize)
    requires { 5 * (at + n) ≤ length field.old }
    ensures { field.new ≡ put field.old (5 * at) (copies n (cell_bytes c)) }
{
    for i in at..at + n {
        c.write(field, i);
    }
}

// first is the number of the row's first cell. The hints are read here and not by `choose`, which
// would be handed a copy of all seven for each block.
fn write_walk(
    recs: &[u8],
    total: usize,
    o: usize,
    refs: [RefHint; 7],
    w: Strip,
    first: usize,
    field: &mut [u8],
)
    requires end_le_limit { (w.end.0 ≤ w.limit.0) × (w.limit.0 ≤ 65536) × (12 * total ≤ length recs.now) × (5 * (first + w.limit.0) ≤ length field.old) }
    requires left_value { walk_read recs.now total o w.end.0 w.limit.0 (w.end.0 - w.left.0) w.left.0 ≡ 0 }
    ensures { field.new ≡ put field.old (5 * (first + w.left.0))
        (walk_bytes recs.now refs o w.end.0 (w.end.0 - w.left.0) w.left.0) }
{
    let mut x = w.left.0;
    let mut last = narrowest();
    // Each turn goes on by the width of the block that it read.
    while x < w.end.0 {
        let b = block_of(recs, o, x);
        let by = b.refs;
        let hint = refs[hint_place(by.first)];
        let hint2 = refs[hint_place(by.second)];
        last = width_after(last, b.bs);
        fill_cells(field, choose(hint, hint2, b), first + x, last.cells);
        x += last.cells;
    }
}

// The entry of a row of cells: the table's own rows stand behind five above.
#[tactic(auto, unfolding(crate::specs::saving::Save::entry_of))]
fn entry_of(y: usize) -> usize
    ensures { (result ≡ entry_of y) × (result < 37) }
{
    6 + 2 * (y % 16)
}

// What the table of an area's tile row, of a superblock row and of a pass has for row y.
pub fn row_entry(s: Sizes, a: Area, sby: usize, pass: usize, y: usize) -> RowEntry
    requires { (well_sizes s ≡ true) × (well_area s a ≡ true) }
    ensures { result.at ≡ place_at (table_for s sby a.tile pass) (entry_of y) }
{
    entry_for(s, sby, a.tile, pass, entry_of(y))
}

#[tactic(auto, unfolding(crate::specs::saving::Save::place_read))]
fn check_place(recs: &[u8], total: usize, w: Strip, p: Option<usize>) -> u8
    requires { (w.end.0 ≤ 65536) × (12 * total ≤ length recs.now) }
    ensures { result ≡ place_read recs.now total w p }
{
    match p {
        None => 6,
        Some(o) => check_walk(recs, total, o, w),
    }
}

// What a row of a save reads, by its entry.
#[tactic(auto, unfolding(crate::specs::saving::Save::strip_read))]
pub fn check_row(recs: &[u8], total: usize, w: Strip, entry: RowEntry) -> u8
    requires { (w.end.0 ≤ 65536) × (12 * total ≤ length recs.now) }
    ensures { result ≡ strip_read recs.now total w entry.at }
{
    if w.left.0 < w.end.0 {
        let at = entry.at;
        return check_place(recs, total, w, at);
    }
    0
}

// Row y of a save, by its entry, whose reads have passed.
pub fn save_row(
    recs: &[u8],
    total: usize,
    refs: [RefHint; 7],
    w: Strip,
    y: usize,
    entry: RowEntry,
    field: &mut [u8],
)
    requires row_room { RowRoom (length recs.now) total (length field.old) w y }
    requires at_value { strip_read recs.now total w entry.at ≡ 0 }
    ensures { field.new ≡ run (place_patch recs.now refs w y entry.at) field.old }
{
    let at = entry.at;
    if let Some(o) = at {
        write_walk(recs, total, o, refs, w, y * w.stride.0, field);
    }
}
