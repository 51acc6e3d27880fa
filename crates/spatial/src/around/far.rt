// What lies farther off: the point above left, then the second and the third line of either side.
ghost use Rattle.std.specs.Prelude.{◌≡◌, ◌+◌, ◌-◌, ◌^◌, ◌≤◌, ◌<◌, length};
ghost use Rattle.spatial.specs.Code.Scan.{scanned};
ghost use Rattle.stack.specs.Code.Numbers.{found_at, view_at, heft_at, Held};
ghost use Rattle.spatial.specs.Code.Site.{Placed};
ghost use Rattle.spatial.specs.Code.Around.{went, Light};
ghost use Rattle.spatial.specs.around.Around.{far_of, has_left, round_of, far_all};
ghost use Rattle.spatial.specs.Code.Neighbour.{read_from};

use crate::around::lines::{far_line, far_span};
use crate::around::near::{Around, around_by, point_where};
use crate::neighbours::records::Records;
use crate::neighbours::want::Want;
use crate::scan::{Scan, scan_line};
use crate::site::block::Site;
use cells::pos::Pos4;

// Line n of a side, unless a neighbour of a nearer line stood for it: reach is how many lines the
// scans of the side stand for, before and after. Each part of `far` leaves the next one room for its
// weights.
fn scan_far(
    records: Records<'_>,
    b: Site,
    down: bool,
    n: usize,
    reach: usize,
    q: Want,
    s: &mut [u64],
) -> Scan
    requires { Placed b × Held s.old × (heft_at s.old < 2 ^ 26) × (2 ≤ n) × (n ≤ 3) × (reach ≤ 64) }
    ensures held { Held s.new × (heft_at s.new ≤ heft_at s.old + 512) × (result.reach ≤ reach + 16) }
    ensures s_after { scanned result (found_at s.new)
        ≡ far_of (read_from records.entry) b down n reach q (view_at s.old) }
{
    if n <= reach || b.depth(down) < n {
        return Scan { answer: 0, reach };
    }
    let r = scan_line(records, far_line(b, down, n), q, far_span(b, down, n), s);
    Scan {
        answer: r.answer,
        reach: reach + r.reach,
    }
}

// Line n of both sides.
fn round(records: Records<'_>, b: Site, n: usize, q: Want, a: Around, s: &mut [u64]) -> Around
    requires { Placed b × Held s.old
        × (heft_at s.old < 2 ^ 25) × (2 ≤ n) × (n ≤ 3) × (a.above ≤ 32) × (a.left ≤ 32) }
    ensures held { Held s.new × (heft_at s.new ≤ heft_at s.old + 1024)
        × (result.above ≤ a.above + 16) × (result.left ≤ a.left + 16) }
    ensures s_after { went result (found_at s.new)
        ≡ round_of (read_from records.entry) b n q (went a (found_at s.old)) }
{
    if a.answer != 0 {
        return a;
    }
    let row = scan_far(records, b, false, n, a.above, q, s);
    if row.answer != 0 {
        return around_by(row, 0, 0);
    }
    let column = scan_far(records, b, true, n, a.left, q, s);
    around_by(column, row.reach, column.reach)
}

// The point above left needs both a row above and a column to the left.
fn has_left(b: Site) -> bool
    requires { Placed b }
    ensures { result ≡ has_left b }
{
    b.depth(false) != 0 && b.depth(true) != 0
}

// above and left are what `near` gave.
pub fn far(
    records: Records<'_>,
    b: Site,
    above: usize,
    left: usize,
    q: Want,
    s: &mut [u64],
) -> Around
    requires { Placed b × Held s.old × Light (heft_at s.old) × (above ≤ 16) × (left ≤ 16) }
    ensures held { Held s.new }
    ensures s_after { went result (found_at s.new)
        ≡ far_all (read_from records.entry) b above left q (view_at s.old) }
{
    let before = Pos4(b.x.0.saturating_sub(1));
    let corner = point_where(has_left(b), records, b, before, q, s);
    let one = around_by(corner, above, left);
    let two = round(records, b, 2, q, one, s);
    round(records, b, 3, q, two, s)
}
