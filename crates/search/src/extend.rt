// The extra search over a block's two sides.
ghost use Rattle.std.specs.Prelude.{◌≡◌, ◌≤◌, ◌<◌, length};
ghost use Rattle.search.specs.Code.Pool.{pools_of};
ghost use Rattle.search.specs.Code.Walk.{pooled};
ghost use Rattle.layout.specs.FrameBytes.{frame_at};
ghost use Rattle.spatial.specs.Code.Site.{Placed};
ghost use Rattle.stack.specs.Code.Numbers.{found_at, view_at, count_at, Held};
ghost use Rattle.stack.specs.Code.Found.{outcome};
ghost use Rattle.search.specs.Extend.{bias_at, biases_of, extra_limit, single_where, single_extra, compound_where, compound_extra, extra_of};
ghost use Rattle.spatial.specs.Code.Neighbour.{read_from};

use crate::extra::lists::Single;
use crate::extra::pool::{Compound, Pools, complete, no_pools, pairs};
use crate::extra::walk::{Pooled, compound_along, single_along};
use cells::block::{MvPair, RefPair};
use cells::pos::Pos4;
use layout::frame_bytes::hint_in;
use spatial::around::lines::near_line;
use spatial::neighbours::records::Records;
use spatial::site::block::Site;
use stack::numbers::count_in;
use std::array;

fn bias_at(frame: &[u8], i: usize) -> u8
    requires { (109 ≤ length frame.now) × (i < 7) }
    ensures { result ≡ bias_at (frame_at frame.now) i }
{
    hint_in(frame, i).sign_bias
}

fn biases_of(frame: &[u8]) -> [u8; 7]
    requires { 109 ≤ length frame.now }
    ensures { result ≡ biases_of (frame_at frame.now) }
{
    array::from_fn(|i| bias_at(frame, i))
}

// Neither side is looked along farther than the other.
fn extra_limit(b: Site) -> Pos4
    requires { Placed b }
    ensures { (result.0 ≡ extra_limit b) × (result.0 ≤ 16) }
{
    Pos4(b.limit(false).0.min(b.limit(true).0))
}

// One side of a single search; nothing at the tile's edge.
fn single_where(records: Records<'_>, b: Site, down: bool, wanted: Single<'_>, s: &mut [u64]) -> u8
    requires { Placed b × Held s.old × (count_at s.old ≤ 3) }
    ensures held { Held s.new × (count_at s.new ≤ 3) }
    ensures s_after { outcome result (found_at s.new)
        ≡ single_where (read_from records.entry) b down wanted.entry.biases.now wanted.entry.reference (view_at s.old) }
{
    if b.depth(down) == 0 {
        return 0;
    }
    let limit = extra_limit(b);
    single_along(records, near_line(b, down), limit, wanted, s)
}

// Above, then to the left.
fn single_extra(records: Records<'_>, b: Site, wanted: Single<'_>, s: &mut [u64]) -> u8
    requires { Placed b × Held s.old × (count_at s.old < 2) }
    ensures held { Held s.new × (count_at s.new ≤ 3) }
    ensures s_after { outcome result (found_at s.new)
        ≡ single_extra (read_from records.entry) b wanted.entry.biases.now wanted.entry.reference (view_at s.old) }
{
    let above = single_where(records, b, false, wanted, s);
    if above != 0 {
        return above;
    }
    single_where(records, b, true, wanted, s)
}

fn compound_where(
    records: Records<'_>,
    b: Site,
    down: bool,
    wanted: Compound<'_>,
    p: Pools,
) -> Pooled
    requires { Placed b }
    ensures { pooled result ≡ compound_where (read_from records.entry) b down wanted.entry.biases.now wanted.entry.refs (pools_of p) }
{
    if b.depth(down) == 0 {
        return Pooled {
            pools: p,
            answer: 0,
        };
    }
    let limit = extra_limit(b);
    compound_along(records, near_line(b, down), limit, wanted, p)
}

// The two pairs that are gathered above, then to the left, with the global vectors behind them.
fn compound_extra(
    records: Records<'_>,
    b: Site,
    wanted: Compound<'_>,
    g: MvPair,
    s: &mut [u64],
) -> u8
    requires { Placed b × Held s.old × (count_at s.old < 2) }
    ensures held { Held s.new × (count_at s.new ≤ 3) }
    ensures s_after { outcome result (found_at s.new)
        ≡ compound_extra (read_from records.entry) b wanted.entry.biases.now wanted.entry.refs g (view_at s.old) }
{
    let above = compound_where(records, b, false, wanted, no_pools());
    if above.answer != 0 {
        return above.answer;
    }
    let both = compound_where(records, b, true, wanted, above.pools);
    if both.answer != 0 {
        return both.answer;
    }
    let (first, second) = pairs(both.pools, g);
    complete(s, first, second);
    0
}

// Only with fewer than two candidates; for INTRA there is none.
pub(crate) fn extend(
    frame: &[u8],
    records: Records<'_>,
    b: Site,
    refs: RefPair,
    g: MvPair,
    s: &mut [u64],
) -> u8
    requires { Placed b × (109 ≤ length frame.now) × Held s.old }
    ensures held { Held s.new }
    ensures s_after { outcome result (found_at s.new)
        ≡ extra_of (read_from records.entry) b (biases_of (frame_at frame.now)) refs g (view_at s.old) }
{
    if 2 <= count_in(s) {
        return 0;
    }
    if !refs.first.is_ref() {
        return 0;
    }
    let biases = biases_of(frame);
    if refs.second.is_ref() {
        let pair = Compound {
            biases: &biases,
            refs,
        };
        return compound_extra(records, b, pair, g, s);
    }
    let one = Single {
        biases: &biases,
        reference: refs.first,
    };
    single_extra(records, b, one, s)
}
