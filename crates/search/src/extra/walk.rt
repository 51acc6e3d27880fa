// The extra search along a line of neighbours, each of which is stepped over whole.
ghost use Rattle.std.specs.Prelude.{◌≡◌, ◌≤◌};
ghost use Rattle.stack.specs.Code.Numbers.{found_at, view_at, count_at, Held};
ghost use Rattle.stack.specs.Code.Found.{outcome};
ghost use Rattle.search.specs.Code.Pool.{pools_of};
ghost use Rattle.search.specs.extra.Walk.{single_on, compound_on};
ghost use Rattle.search.specs.Code.Walk.{pooled, Walked};
ghost use Rattle.spatial.specs.Code.Neighbour.{line_from};

use crate::extra::lists::Single;
use crate::extra::pool::{Compound, Pools};
use cells::pos::Pos4;
use spatial::neighbours::read::{Line, NeighbourRead};
use spatial::neighbours::records::Records;
use stack::numbers::count_in;

// answer is 0, or a refusal, and then nothing is meant by pools.
#[derive(Clone, Copy)]
pub struct Pooled {
    pub pools: Pools,
    pub answer: u8,
}

// A single search stops at two candidates.
pub fn single_along(
    records: Records<'_>,
    l: Line,
    limit: Pos4,
    wanted: Single<'_>,
    s: &mut [u64],
) -> u8
    requires { Walked l limit.0 × Held s.old × (count_at s.old ≤ 3) }
    ensures held { Held s.new × (count_at s.new ≤ 3) }
    ensures s_after { outcome result (found_at s.new)
        ≡ single_on (line_from records.entry l) l.down limit.0 wanted.entry.biases.now wanted.entry.reference
        limit.0 0 (view_at s.old) }
{
    // No range: x goes on by what was read.
    let mut x: usize = 0;
    while x < limit.0 {
        if 2 <= count_in(s) {
            return 0;
        }
        match records.neighbour_at(l, Pos4(x)) {
            NeighbourRead::Refused(n) => {
                return n;
            }
            NeighbourRead::Of(k) => {
                wanted.extend(k.block, s);
                x += k.along(l.down).0;
            }
        }
    }
    0
}

// A compound one gathers from all of them. It isn't one function with the walk above: that one may stop
// early and fills the lent stack, and what both share is a loop of six lines.
pub fn compound_along(
    records: Records<'_>,
    l: Line,
    limit: Pos4,
    wanted: Compound<'_>,
    p: Pools,
) -> Pooled
    requires { Walked l limit.0 }
    ensures { pooled result
        ≡ compound_on (line_from records.entry l) l.down limit.0 wanted.entry.biases.now wanted.entry.refs limit.0 0 (pools_of p) }
{
    let mut t = p;
    // No range: x goes on by what was read.
    let mut x: usize = 0;
    while x < limit.0 {
        match records.neighbour_at(l, Pos4(x)) {
            NeighbourRead::Refused(n) => {
                return Pooled {
                    pools: t,
                    answer: n,
                };
            }
            NeighbourRead::Of(k) => {
                t = wanted.gather(k.block, t);
                x += k.along(l.down).0;
            }
        }
    }
    Pooled {
        pools: t,
        answer: 0,
    }
}
