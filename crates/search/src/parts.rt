// The temporal part of a search: the block's place in the projection, and where its cells are aimed.
ghost use Rattle.std.specs.Prelude.{◌≡◌, true, ◌+◌, ◌^◌, ◌≤◌, ◌<◌, length};
ghost use Rattle.frame.specs.extent.Sizes.{well_sizes};
ghost use Rattle.layout.specs.FrameBytes.{frame_at};
ghost use Rattle.layout.specs.TileBytes.{tile_at};
ghost use Rattle.spatial.specs.Code.Site.{Placed};
ghost use Rattle.stack.specs.Code.Numbers.{found_at, view_at, heft_at, Held};
ghost use Rattle.stack.specs.Code.Found.{outcome};
ghost use Rattle.temporal.specs.Temporal.{cell_read};
ghost use Rattle.temporal.specs.Code.Sweep.{Light};
ghost use Rattle.search.specs.Parts.{distance_to, aim_of, field_of, temporal_where, zero_where};
ghost use Rattle.search.specs.Code.Parts.{TemporalRoom};

use crate::front::ask::{Ask, global_of};
use cells::cell::Ref;
use frame::extent::sizes::Sizes;
use layout::frame_bytes::hint_in;
use layout::tile_bytes::proj_in;
use spatial::site::block::Site;
use temporal::aim::{Aim, zero_context};
use temporal::sweep::{Field, sweep_all};

// How far the current frame lies from a reference; 0 without one.
fn distance_to(frame: &[u8], r: Ref) -> i16
    requires { 109 ≤ length frame.now }
    ensures { result ≡ distance_to (frame_at frame.now) r }
{
    if r.is_ref() {
        let hint = hint_in(frame, r.place());
        return hint.pocdiff;
    }
    0
}

pub(crate) fn aim_of(frame: &[u8], a: Ask) -> Aim
    requires { 109 ≤ length frame.now }
    ensures { result ≡ aim_of (frame_at frame.now) a }
{
    let refs = a.refs;
    let global = global_of(a);
    let gmv = global.first;
    Aim {
        compound: refs.second.is_ref(),
        first: distance_to(frame, refs.first),
        second: distance_to(frame, refs.second),
        integer: a.integer == 1,
        hp: a.hp == 1,
        gmv,
    }
}

// The tile row's part of the projection holds 16 rows, each row of the frame modulo 16.
pub(crate) fn field_of(z: Sizes, tile: &[u8], b: Site) -> Field
    requires { (168 ≤ length tile.now) × (well_sizes z ≡ true) × Placed b }
    ensures { (result ≡ field_of z (tile_at tile.now) b) × ((tile_at tile.now).proj < 2 ^ 32) }
{
    let stride = z.stride;
    Field {
        first: proj_in(tile) + b.y.halved().0 % 16 * stride.0 + b.x.halved().0,
        stride,
        total: z.projected_cells(),
    }
}

// Nothing where temporal search is off.
pub(crate) fn temporal_where(on: bool, proj: &[u8], f: Field, b: Site, a: Aim, s: &mut [u64]) -> u8
    requires { TemporalRoom on (length proj.now) f b a × Held s.old × Light 134 (heft_at s.old) }
    ensures held { Held s.new × (heft_at s.new ≤ heft_at s.old + 134) }
    ensures s_after { outcome result (found_at s.new) ≡ temporal_where on (cell_read proj.now f.total) a f b (view_at s.old) }
{
    if on {
        return sweep_all(proj, f, b, a, s);
    }
    0
}

// The zero-motion context: the header's flag, unless a first cell that isn't absent decides.
pub(crate) fn zero_where(on: bool, proj: &[u8], f: Field, b: Site, a: Aim, header: u8) -> u8
    requires { TemporalRoom on (length proj.now) f b a × (header ≤ 1) }
    ensures { (result ≡ zero_where on (cell_read proj.now f.total) a f header) × (result ≤ 1) }
{
    if on {
        return zero_context(proj, f.total, f.first, a, header);
    }
    header
}
