// A reference that is projected: where it stands to the current frame, and its own references to it.
ghost use Rattle.std.specs.Prelude.{◌≡◌, true, ◌+◌, ◌*◌, ◌≤◌, ◌<◌, ◌^◌, length, get_or};
ghost use Rattle.vector.specs.Hint.{distance};
ghost use Rattle.frame.specs.hints.Description.{under, hinted};
ghost use Rattle.frame.specs.hints.Distances.{seven};
ghost use Rattle.frame.specs.Mfmv.{far, towards, offset, mfmv_of, idle, slot_in, well_cur, well_mfmv};
ghost use Rattle.frame.specs.hints.Selection.{selectable};

use crate::hints::description::{Description, held_in};
use crate::hints::distances::near;
use crate::hints::select::{ALTREF, BWDREF, LAST2, Selection};
use ground::sign::{magnitude, negative};
use vector::hint::get_poc_diff;

// reference is counted from 0, LAST. ref2cur is how far it lies from the current frame: one more than
// 31 away has none, for it counts as selected, and none of its cells lands. ref2ref holds, for each
// reference of that frame, how far it lies before that frame, or 0 where its cells are not projected.
#[derive(Clone, Copy)]
pub struct Mfmv {
    pub reference: u8,
    pub ref2cur: Option<i16>,
    pub ref2ref: [u8; 7],
}

fn is_far(z: i16) -> bool
    ensures { result ≡ far z }
{
    31 < magnitude(z)
}

// The distance as it is projected with: cells of LAST and LAST2 go forwards, those of later frames
// backwards.
fn toward_current(z: i16, reference: u8) -> Option<i16>
    ensures { result ≡ towards z reference }
{
    if is_far(z) {
        return None;
    }
    Some(if reference <= LAST2 { -z } else { z })
}

fn offset_of(z: i16) -> u8
    ensures { result ≡ offset z }
{
    if negative(z) || is_far(z) {
        return 0;
    }
    magnitude(z) as u8
}

// here is the hint of reference r, held what the references' own frames held.
fn ref2ref(bits: u32, held: &[u8], here: u32, r: usize, m: usize) -> u8
    requires { (bits ≤ 8) × (here < 2 ^ bits) × (under held.now (2 ^ bits) ≡ true) × (length held.now ≡ 49) × (r < 7) × (m < 7) }
    ensures { result ≡ offset (distance bits here (get_or held.now (7 * r + m) 0)) }
{
    offset_of(get_poc_diff(bits, here, held_in(held, r, m)))
}

fn refs2ref(bits: u32, held: &[u8], here: u32, r: usize) -> [u8; 7]
    requires { (bits ≤ 8) × (here < 2 ^ bits) × (under held.now (2 ^ bits) ≡ true) × (length held.now ≡ 49) × (r < 7) }
    ensures { result ≡ seven (λ m. offset (distance bits here (get_or held.now (7 * r + m) 0))) }
{
    std::array::from_fn(|m| ref2ref(bits, held, here, r, m))
}

// d's hints, and those that the references' own frames held, are lent beside it: an array is copied
// where a byte of it is read, for each byte anew.
fn mfmv_of(d: Description, hints: &[u8], held: &[u8], reference: u8) -> Mfmv
    requires { (hints.now ≡ d.hints) × (held.now ≡ d.hints_by_ref) × (hinted d ≡ true) × (reference < 7) }
    ensures { result ≡ mfmv_of d reference }
{
    let r = usize::from(reference);
    let here = u32::from(hints[r]);
    let there = get_poc_diff(d.hint_bits, here, d.current_hint);
    let ref2cur = toward_current(there, reference);
    let ref2ref = if is_far(there) {
        [0; 7]
    } else {
        refs2ref(d.hint_bits, held, here, r)
    };
    Mfmv {
        reference,
        ref2cur,
        ref2ref,
    }
}

// What stands where nothing is selected.
fn idle_mfmv() -> Mfmv
    ensures { result ≡ idle }
{
    Mfmv {
        reference: 0,
        ref2cur: Some(0),
        ref2ref: [0; 7],
    }
}

// Place i of a selection.
pub fn slot(d: Description, hints: &[u8], held: &[u8], c: Selection, i: usize) -> Mfmv
    requires hints_value { (hints.now ≡ d.hints) × (held.now ≡ d.hints_by_ref) × (hinted d ≡ true) }
    requires i_bound { (i < 3) × (get_or c.refs i 0 < 7) }
    ensures { result ≡ slot_in d c i }
{
    let refs = c.refs;
    if i < c.n {
        return mfmv_of(d, hints, held, refs[i]);
    }
    idle_mfmv()
}

impl Mfmv {
    // Whether setup can give these values.
    pub fn well_formed(self) -> bool
        ensures { result ≡ well_mfmv self }
    {
        is_selectable(self.reference) && well_cur(self.ref2cur) && all_short(self.ref2ref)
    }
}

fn is_selectable(reference: u8) -> bool
    ensures { result ≡ selectable reference }
{
    if BWDREF <= reference {
        reference <= ALTREF
    } else {
        reference <= LAST2
    }
}

fn well_cur(c: Option<i16>) -> bool
    ensures { result ≡ well_cur c }
{
    c.is_none_or(|z| near(z))
}

// The seven together have a bit above the low five where one of them has: one test for all.
fn all_short(o: [u8; 7]) -> bool
    ensures { result ≡ under o 32 }
{
    (o[0] | o[1] | o[2] | o[3] | o[4] | o[5] | o[6]) < 32
}
