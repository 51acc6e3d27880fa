// The search from its front to its answer.
ghost use Rattle.std.specs.Prelude.{◌≡◌, ◌≤◌, length};
ghost use Rattle.frame.specs.extent.Sizes.{most_units, records};
ghost use Rattle.layout.specs.FrameBytes.{frame_at};
ghost use Rattle.layout.specs.TileBytes.{tile_at};
ghost use Rattle.spatial.specs.Code.Site.{Placed};
ghost use Rattle.stack.specs.Code.Numbers.{found_at, view_at, heft_at, count_at, Held};
ghost use Rattle.search.specs.front.Ask.{find_front};
ghost use Rattle.search.specs.front.Context.{matches_of};
ghost use Rattle.search.specs.Code.Find.{finding, Past};
ghost use Rattle.search.specs.Find.{reach_of, concluded, timed, gone_on, find_of};
ghost use Rattle.search.specs.Code.Bytes.{cells_in};
ghost use Rattle.spatial.specs.Code.Neighbour.{read_from};

use crate::extend::extend;
use crate::front::ask::{Ask, find_front, global_of, site_of, want_of};
use crate::front::context::{context_of, matches};
use crate::parts::{aim_of, field_of, temporal_where, zero_where};
use crate::source::Source;
use frame::extent::sizes::Sizes;
use layout::frame_bytes::{sizes_at, temporal_in, use_ref_frame_mvs_in};
use spatial::around::far::far;
use spatial::around::near::{Around, near};
use spatial::neighbours::records::Records;
use spatial::site::block::Site;
use stack::add::{REF_CAT_LEVEL, raise};
use stack::clamp::{Reach, clamp};
use stack::numbers::{Flag, count_in, flag_in};
use stack::sort::sort_parts;
use vector::mv::Mv;

// answer is 0, or a refusal, and then nothing is meant by the others, nor by what was found. fill stands for the slots below
// two that a single search leaves empty.
#[derive(Clone, Copy)]
pub struct Findings {
    pub answer: u8,
    pub context: u8,
    pub fill: Mv,
}

// How many candidates the near neighbours gave, on how many sides they matched, and whether one of
// their modes has a new vector.
#[derive(Clone, Copy)]
struct Nearest {
    count: usize,
    matched: u8,
    newmv: bool,
}

fn refuse(answer: u8) -> Findings
    requires { 1 ≤ answer }
    ensures { result.answer ≡ answer }
{
    let fill = Mv::ZERO;
    Findings {
        answer,
        context: 0,
        fill,
    }
}

// Four units past the block's far side, and as far past the frame's.
fn reach_of(z: Sizes, b: Site) -> Reach
    requires { Placed b × (b.row.end.0 ≤ z.ih4.0) × (b.col.end.0 ≤ z.iw4.0) × (z.ih4.0 ≤ most_units) × (z.iw4.0 ≤ most_units) }
    ensures { result ≡ reach_of z b }
{
    let y = b.y.0;
    let x = b.x.0;
    Reach {
        up: (32 * (y + b.h.0 + 4)) as u32,
        down: (32 * (z.ih4.0 - y + 4)) as u32,
        left: (32 * (x + b.w.0 + 4)) as u32,
        right: (32 * (z.iw4.0 - x + 4)) as u32,
    }
}

fn take_nearest(s: &[u64]) -> Nearest
    requires { length s.now ≡ 20 }
    ensures { (result ≡ record { count = count_at s.now; matched = matches_of (view_at s.now); newmv = (view_at s.now).newmv })
        × (result.matched ≤ 2) }
{
    Nearest {
        count: count_in(s),
        matched: matches(s),
        newmv: flag_in(s, Flag::NewMv),
    }
}

// What all neighbours found, sorted, filled up by the extra search and clamped.
fn conclude(
    frame: &[u8],
    records: Records<'_>,
    a: Ask,
    zero: u8,
    near: Nearest,
    s: &mut [u64],
) -> Findings
    requires { Past (frame_at frame.now) (tile_at records.tile.now) a (length frame.now)
        × (zero ≤ 1) × (near.matched ≤ 2) × Held s.old }
    ensures held { Held s.new }
    ensures s_after { finding result (found_at s.new)
        ≡ concluded (read_from records.entry)
        (frame_at frame.now) (tile_at records.entry.tile.now) a zero near.count near.matched near.newmv
        (view_at s.old) }
{
    let z = sizes_at(frame);
    let b = site_of(records.tile, a);
    let refs = a.refs;
    let global = global_of(a);
    let matched = matches(s);
    // The stack only grows: the near candidates are no more than all of them.
    sort_parts(s, near.count.min(count_in(s)));
    let last = extend(frame, records, b, refs, global, s);
    if last != 0 {
        return refuse(last);
    }
    clamp(s, reach_of(z, b));
    let compound = refs.second.is_ref();
    let context = context_of(compound, near.matched, matched, near.newmv, zero);
    let fill = global.first;
    Findings {
        answer: 0,
        context,
        fill,
    }
}

// Whether temporal search is on.
fn is_timed(frame: &[u8]) -> bool
    requires { 109 ≤ length frame.now }
    ensures { result ≡ timed (frame_at frame.now) }
{
    use_ref_frame_mvs_in(frame) != 0
}

// From the near neighbours on: the projection, then what lies farther off.
fn go_on(
    frame: &[u8],
    records: Records<'_>,
    proj: &[u8],
    a: Ask,
    n: Around,
    s: &mut [u64],
) -> Findings
    requires { (find_front (frame_at frame.now) (tile_at records.tile.now) a (length records.recs.now) (length proj.now) ≡ 0)
        × (109 ≤ length frame.now) × (n.answer ≡ 0) × Held s.old
        × (heft_at s.old ≤ 1028) × (n.above ≤ 16) × (n.left ≤ 16) }
    ensures held { Held s.new }
    ensures s_after { finding result (found_at s.new)
        ≡ gone_on (read_from records.entry)
        (cells_in frame.now proj.now) (frame_at frame.now) (tile_at records.entry.tile.now) a
        (view_at s.old) n.above n.left }
{
    let z = sizes_at(frame);
    let b = site_of(records.tile, a);
    let on = is_timed(frame);
    let header = temporal_in(frame);
    let aim = aim_of(frame, a);
    let f = field_of(z, records.tile, b);
    let first = take_nearest(s);
    raise(s, REF_CAT_LEVEL);
    let timed = temporal_where(on, proj, f, b, aim, s);
    if timed != 0 {
        return refuse(timed);
    }
    let all = far(records, b, n.above, n.left, want_of(a), s);
    if all.answer != 0 {
        return refuse(all.answer);
    }
    let zero = zero_where(on, proj, f, b, aim, header);
    conclude(frame, records, a, zero, first, s)
}

// A search on the bytes of a frame record and of a tile, where they stand.
pub fn find(from: Source<'_>, a: Ask, s: &mut [u64]) -> Findings
    requires { (109 ≤ length from.frame.now) × (168 ≤ length from.tile.now) × (length s.old ≡ 20) }
    ensures held { (result.answer ≡ 0) → Held s.new }
    ensures s_after { finding result (found_at s.new)
        ≡ find_of (frame_at from.entry.frame.now) (tile_at from.entry.tile.now) from.entry.recs.now from.entry.proj.now a }
{
    let Source {
        frame,
        tile,
        recs,
        proj,
    } = from;
    let front = find_front(frame, tile, a, recs.len(), proj.len());
    if front != 0 {
        return refuse(front);
    }
    let z = sizes_at(frame);
    let b = site_of(tile, a);
    let records = Records {
        tile,
        recs,
        total: z.records(),
    };
    let n = near(records, b, a.decoded == 1, want_of(a), s);
    if n.answer != 0 {
        return refuse(n.answer);
    }
    go_on(frame, records, proj, a, n, s)
}
