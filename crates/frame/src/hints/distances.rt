// How far each reference lies from the current frame.
ghost use Rattle.std.specs.Prelude.{◌≡◌, true, ◌<◌, ◌^◌, leb, pos, neg_ℤ, nat_abs};
ghost use Rattle.std.specs.Int.Signed.{lt_z};
ghost use Rattle.ground.specs.Sign.{clip3};
ghost use Rattle.frame.specs.hints.Description.{hinted, hint_at};
ghost use Rattle.frame.specs.hints.Distances.{from_current, ref_hint_of, ref_hints, well_hint};

use crate::hints::description::{Description, hint};
use ground::sign::{magnitude, negative, with_sign};
use vector::hint::get_poc_diff;

// sign_bias is 1 where the reference comes after the current frame, mfmv_sign where it comes before.
// pocdiff is the distance from the reference to the current frame, held to 31 either way. The flags
// stay bytes: a record that C hands back holds any, and `well_hint` judges them.
#[derive(Clone, Copy)]
pub struct RefHint {
    pub sign_bias: u8,
    pub mfmv_sign: u8,
    pub pocdiff: i16,
}

pub(crate) fn ahead(d: i16) -> bool
    ensures { result ≡ lt_z (pos 0) d }
{
    0 < d
}

// From the current frame to the frame of a hint.
pub(crate) fn from_current(d: Description, hint: u32) -> i16
    requires { (hinted d ≡ true) × (hint < 2 ^ d.hint_bits) }
    ensures { result ≡ from_current d hint }
{
    get_poc_diff(d.hint_bits, hint, d.current_hint)
}

fn clipped(d: i16) -> i16
    ensures { result ≡ clip3 (neg_ℤ (pos 31)) (pos 31) d }
{
    with_sign(negative(d), magnitude(d).min(31))
}

// At most 31 either way. Two comparisons with the number itself are one test of the machine's, and
// its magnitude would be worked out first.
pub fn near(z: i16) -> bool
    ensures { result ≡ leb (nat_abs z) 31 }
{
    -31 <= z && z <= 31
}

fn ref_hint(d: Description, i: usize) -> RefHint
    requires { (hinted d ≡ true) × (i < 7) }
    ensures { result ≡ ref_hint_of d (hint_at d i) }
{
    let h = hint(d, i);
    let there = from_current(d, h);
    let back = get_poc_diff(d.hint_bits, d.current_hint, h);
    RefHint {
        sign_bias: u8::from(ahead(there)),
        mfmv_sign: u8::from(negative(there)),
        pocdiff: clipped(back),
    }
}

pub fn ref_hints(d: Description) -> [RefHint; 7]
    requires { hinted d ≡ true }
    ensures { result ≡ ref_hints d }
{
    std::array::from_fn(|i| ref_hint(d, i))
}

impl RefHint {
    // Whether setup can give these values.
    pub fn well_formed(self) -> bool
        ensures { result ≡ well_hint self }
    {
        self.sign_bias <= 1 && self.mfmv_sign <= 1 && near(self.pocdiff)
    }
}
