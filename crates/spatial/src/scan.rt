// A scan along a line of neighbours, the Rust's `scan_row` and `scan_col` in one.
ghost use Rattle.std.specs.Prelude.{◌≡◌, ◌+◌, ◌≤◌, ◌<◌, ◌^◌};
ghost use Rattle.stack.specs.Code.Numbers.{found_at, view_at, heft_at, Held};
ghost use Rattle.spatial.specs.Scan.{weight_of, next_of, scan_on, scan_from, scan_of, point_of};
ghost use Rattle.spatial.specs.Code.Scan.{scanned, Room, Fair, Sized};
ghost use Rattle.spatial.specs.Code.Neighbour.{read_from, line_from};

use crate::neighbours::read::{Line, Neighbour, NeighbourRead};
use crate::neighbours::records::Records;
use crate::neighbours::want::Want;
use crate::take::add_spatial;
use cells::pos::Pos4;
use ground::bound::{least, most};

// The block's side along the line, how far neighbours are looked at, how many rows of neighbours the
// search may look at from here on, and the least that a neighbour counts for.
#[derive(Clone, Copy)]
pub struct Span {
    pub size: Pos4,
    pub limit: Pos4,
    pub rows: usize,
    pub step: Pos4,
}

// The weight of each unit of a neighbour that is shorter than the block.
const SHORT: usize = 2;

// answer is 0, or a refusal, and then nothing is meant by reach, nor by what was found. reach is how many rows of
// neighbours the scan stands for.
#[derive(Clone, Copy)]
pub struct Scan {
    pub answer: u8,
    pub reach: usize,
}

// A later neighbour and what it counts for.
#[derive(Clone, Copy)]
pub enum Next {
    Take(Neighbour, Pos4),
    Refused(u8),
}

// A neighbour that is as long as the block stands for several rows at once, as far as it reaches.
fn weigh(p: Span, across: Pos4) -> usize
    requires { p.rows ≤ 64 }
    ensures { result ≡ weight_of p across.0 }
{
    if p.size.0 == 1 {
        return 2;
    }
    most(2, least(2 * p.rows, across.0))
}

// 9 where a later neighbour is as long as the block.
fn next_at(records: Records<'_>, l: Line, p: Span, i: Pos4) -> Next
    requires { Room l × (i.0 < 128) }
    ensures { result ≡ next_of (line_from records.entry l) l.down p i.0 }
{
    match records.neighbour_at(l, i) {
        NeighbourRead::Refused(n) => Next::Refused(n),
        NeighbourRead::Of(k) => {
            let n = k.along(l.down);
            if n.0 < p.size.0 {
                return Next::Take(k, Pos4(p.step.0.max(n.0)));
            }
            Next::Refused(9)
        }
    }
}

// The scan from its second neighbour on. The first one's weight may be among those of the stack.
fn scan_on(records: Records<'_>, l: Line, q: Want, p: Span, from: Pos4, s: &mut [u64]) -> Scan
    requires { Room l × Held s.old × Fair 0 p × (heft_at s.old < 2 ^ 31) × (from.0 ≤ 64) }
    ensures held { Held s.new × (heft_at s.new ≤ heft_at s.old + 256) × (result.reach ≤ 16) }
    ensures s_after { scanned result (found_at s.new)
        ≡ scan_on (line_from records.entry l) l.down q p p.limit.0 from.0 (view_at s.old) }
{
    let mut x = from.0;
    // No range: x goes on by what was read.
    while x < p.limit.0 {
        match next_at(records, l, p, Pos4(x)) {
            Next::Refused(n) => {
                return Scan {
                    answer: n,
                    reach: 0,
                };
            }
            Next::Take(k, len) => {
                add_spatial(s, (SHORT * len.0) as u64, k.block, q, l.down);
                x += len.0;
            }
        }
    }
    Scan {
        answer: 0,
        reach: 1,
    }
}

// The scan, once its first neighbour is read.
fn scan_from(records: Records<'_>, l: Line, q: Want, p: Span, k: Neighbour, s: &mut [u64]) -> Scan
    requires { Room l × Held s.old × Fair (heft_at s.old) p × Sized l.down k }
    ensures held { Held s.new × (heft_at s.new ≤ heft_at s.old + 512) × (result.reach ≤ 16) }
    ensures s_after { scanned result (found_at s.new)
        ≡ scan_from (line_from records.entry l) l.down q p k (view_at s.old) }
{
    let n = k.along(l.down);
    if n.0 < p.size.0 {
        let len = Pos4(p.step.0.max(n.0));
        add_spatial(s, (SHORT * len.0) as u64, k.block, q, l.down);
        return scan_on(records, l, q, p, len, s);
    }
    let across = k.across(l.down);
    let weight = weigh(p, across);
    let len = p.step.0.max(p.size.0);
    add_spatial(s, (len * weight) as u64, k.block, q, l.down);
    Scan {
        answer: 0,
        reach: weight / 2,
    }
}

pub fn scan_line(records: Records<'_>, l: Line, q: Want, p: Span, s: &mut [u64]) -> Scan
    requires { Room l × Held s.old × Fair (heft_at s.old) p }
    ensures held { Held s.new × (heft_at s.new ≤ heft_at s.old + 512) × (result.reach ≤ 16) }
    ensures s_after { scanned result (found_at s.new)
        ≡ scan_of (line_from records.entry l) l.down q p (view_at s.old) }
{
    match records.neighbour_at(l, Pos4(0)) {
        NeighbourRead::Refused(n) => Scan {
            answer: n,
            reach: 0,
        },
        NeighbourRead::Of(k) => scan_from(records, l, q, p, k, s),
    }
}

// A single neighbour, above left or above right, which counts as one above.
pub fn point(records: Records<'_>, e: usize, col: Pos4, q: Want, s: &mut [u64]) -> Scan
    requires { Held s.old × (heft_at s.old < 2 ^ 31) }
    ensures held { Held s.new × (heft_at s.new ≤ heft_at s.old + 4) }
    ensures s_after { scanned result (found_at s.new)
        ≡ point_of (read_from records.entry e col.0) q (view_at s.old) }
{
    match records.read_at(e, col) {
        NeighbourRead::Refused(n) => Scan {
            answer: n,
            reach: 0,
        },
        NeighbourRead::Of(k) => {
            add_spatial(s, 4, k.block, q, false);
            Scan {
                answer: 0,
                reach: 0,
            }
        }
    }
}
