// What touches the block: the row above, the column to the left, the point above right.
ghost use Rattle.std.specs.Prelude.{◌≡◌, ◌+◌, ◌≤◌, length};
ghost use Rattle.spatial.specs.Code.Scan.{scanned};
ghost use Rattle.stack.specs.Code.Numbers.{found_at, view_at, heft_at, Held};
ghost use Rattle.spatial.specs.Code.Site.{Placed};
ghost use Rattle.spatial.specs.Code.Around.{went, Light};
ghost use Rattle.spatial.specs.around.Around.{near_of, has_right, point_where, near_all};
ghost use Rattle.spatial.specs.Code.Neighbour.{read_from};

use crate::around::lines::{near_line, near_span, row_of};
use crate::neighbours::records::Records;
use crate::neighbours::want::Want;
use crate::scan::{Scan, point, scan_line};
use crate::site::block::Site;
use cells::pos::Pos4;
use stack::numbers::clear;

// above and left are how many lines of neighbours the scans of either side stand for. answer is 0, or
// a refusal, and then nothing is meant by the others, nor by what was found.
#[derive(Clone, Copy)]
pub struct Around {
    pub answer: u8,
    pub above: usize,
    pub left: usize,
}

// At the tile's edge there is none.
fn scan_near(records: Records<'_>, b: Site, down: bool, q: Want, s: &mut [u64]) -> Scan
    requires { Placed b × Held s.old × Light (heft_at s.old) }
    ensures held { Held s.new × (heft_at s.new ≤ heft_at s.old + 512) × (result.reach ≤ 16) }
    ensures s_after { scanned result (found_at s.new) ≡ near_of (read_from records.entry) b down q (view_at s.old) }
{
    if b.depth(down) == 0 {
        return Scan {
            answer: 0,
            reach: 0,
        };
    }
    scan_line(records, near_line(b, down), q, near_span(b, down), s)
}

// The point above right is looked at where it is decoded, as the caller says, and in the tile.
fn has_right(b: Site, decoded: bool) -> bool
    requires { Placed b }
    ensures { result ≡ has_right b decoded }
{
    decoded && b.depth(false) != 0 && b.w.0 <= 16 && b.h.0 <= 16 && b.x.0 + b.w.0 < b.col.end.0
}

// A point of the row above, where it is looked at.
pub(crate) fn point_where(
    here: bool,
    records: Records<'_>,
    b: Site,
    col: Pos4,
    q: Want,
    s: &mut [u64],
) -> Scan
    requires { Held s.old × Light (heft_at s.old) }
    ensures held { Held s.new × (heft_at s.new ≤ heft_at s.old + 4) }
    ensures s_after { scanned result (found_at s.new)
        ≡ point_where here (read_from records.entry) b col.0 q (view_at s.old) }
{
    if here {
        return point(records, row_of(b).0 + 4, col, q, s);
    }
    Scan {
        answer: 0,
        reach: 0,
    }
}

pub(crate) fn around_by(r: Scan, above: usize, left: usize) -> Around
    ensures { result ≡ record { answer = r.answer; above = above; left = left } }
{
    Around {
        answer: r.answer,
        above,
        left,
    }
}

pub fn near(records: Records<'_>, b: Site, decoded: bool, q: Want, s: &mut [u64]) -> Around
    requires { Placed b × (length s.old ≡ 20) }
    ensures held { Held s.new × (heft_at s.new ≤ 1028) × (result.above ≤ 16) × (result.left ≤ 16) }
    ensures s_after { went result (found_at s.new) ≡ near_all (read_from records.entry) b decoded q }
{
    clear(s);
    let row = scan_near(records, b, false, q, s);
    if row.answer != 0 {
        return around_by(row, 0, 0);
    }
    let column = scan_near(records, b, true, q, s);
    if column.answer != 0 {
        return around_by(column, 0, 0);
    }
    let right = point_where(has_right(b, decoded), records, b, Pos4(b.x.0 + b.w.0), q, s);
    around_by(right, row.reach, column.reach)
}
