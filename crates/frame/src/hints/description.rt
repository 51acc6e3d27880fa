// What a decoder hands over to set a frame up, and whether it is in order.
ghost use Rattle.std.specs.Prelude.{◌≡◌, ◌+◌, ◌*◌, ◌≤◌, ◌<◌, ◌^◌, length, get_or};
ghost use Rattle.frame.specs.hints.Description.{under, flags, hinted, setup_answer, hint_at, held_at};

use crate::extent::sizes::limited;

// References are counted from 0, which is LAST, to 6, which is ALTREF. hints_by_ref holds, from 7 * i
// on, the hints that reference i's own frame held for its references. sb128 and temporal stay bytes:
// C hands any over, and `flags` refuses those above 1.
#[derive(Clone, Copy)]
pub struct Description {
    pub width: usize,
    pub height: usize,
    pub sb128: u8,
    pub hint_bits: u32,
    pub current_hint: u32,
    pub hints: [u8; 7],
    pub hints_by_ref: [u8; 49],
    pub tile_rows: usize,
    pub tile_threads: usize,
    pub frame_threads: usize,
    pub temporal: u8,
}

pub fn all_under(xs: &[u8], limit: u32) -> bool
    ensures { result ≡ under xs.now limit }
{
    xs.iter().all(|x| u32::from(*x) < limit)
}

fn flags_fit(d: Description, present: [u8; 7]) -> bool
    ensures { result ≡ flags d present }
{
    d.sb128 <= 1 && d.temporal <= 1 && all_under(&present, 2)
}

// What every hint of this many bits lies below.
fn hint_limit(bits: u32) -> u32
    requires { bits ≤ 8 }
    ensures { result ≡ 2 ^ bits }
{
    1u32 << bits
}

// All bytes together have a bit above the low ones where one of them has: one test for all.
fn all_fit(xs: &[u8], bits: u32) -> bool
    requires { bits ≤ 8 }
    ensures { result ≡ under xs.now (2 ^ bits) }
{
    let together = xs.iter().fold(0u8, |together, x| together | *x);
    u32::from(together) < hint_limit(bits)
}

// held is d.hints_by_ref, lent: one who has those bytes elsewhere has them read there.
fn hints_fit(d: Description, held: &[u8]) -> bool
    requires { held.now ≡ d.hints_by_ref }
    ensures { result ≡ hinted d }
{
    d.hint_bits <= 8
        && d.current_hint < hint_limit(d.hint_bits)
        && all_fit(&d.hints, d.hint_bits)
        && all_fit(held, d.hint_bits)
}

// The answer of frame setup: 1, 2 or 0.
pub fn check_description(d: Description, held: &[u8], present: [u8; 7]) -> u8
    requires { held.now ≡ d.hints_by_ref }
    ensures { result ≡ setup_answer d present }
{
    let is_limited = limited(
        d.width,
        d.height,
        d.tile_rows,
        d.tile_threads,
        d.frame_threads,
    );
    if !(is_limited && flags_fit(d, present)) {
        return 1;
    }
    if hints_fit(d, held) { 0 } else { 2 }
}

// A reference's hint.
pub(crate) fn hint(d: Description, r: usize) -> u32
    requires { r < 7 }
    ensures { result ≡ hint_at d r }
{
    u32::from(d.hints[r])
}

// The hint that reference r's own frame held for reference m.
pub(crate) fn held(d: Description, r: usize, m: usize) -> u32
    requires { (r < 7) × (m < 7) }
    ensures { result ≡ held_at d r m }
{
    u32::from(d.hints_by_ref[7 * r + m])
}

// The same, of the hints lent: for a reference that is not fixed the array would be copied first.
pub fn held_in(held: &[u8], r: usize, m: usize) -> u32
    requires { (length held.now ≡ 49) × (r < 7) × (m < 7) }
    ensures { result ≡ get_or held.now (7 * r + m) 0 }
{
    u32::from(held[7 * r + m])
}
