// The motion vector, and its four bytes.
ghost use Rattle.std.specs.Prelude.{◌≡◌, ◌+◌, ◌≤◌, length, leb, neg_ℤ, nat_abs};
ghost use Rattle.ground.specs.Put.{put};
ghost use Rattle.vector.specs.Vector.{Within, within, invalid, eq_mv, both, mv_at, mv_bytes, mv_bits, mv_of};

use ground::read::u32_at;
use ground::twos::{half_bits, signed_half, write_half};

// In eighths of a sample, down and to the right.
#[derive(Clone, Copy, Debug, PartialEq, Eq)]
pub struct Mv {
    pub y: i16,
    pub x: i16,
}

// In -most..=most: two comparisons of the number as it stands cost less than its magnitude.
fn is_short(c: i16, most: u32) -> bool
    ensures { result ≡ leb (nat_abs c) most }
{
    32767 < most || (-(most as i16) <= c && c <= most as i16)
}

impl Mv {
    pub const ZERO: Mv = Mv { y: 0, x: 0 };

    // No vector at all: the mark of a projected cell, and of an intra block, that has no motion.
    pub const INVALID: Mv = Mv {
        y: -32768,
        x: -32768,
    };

    // Both components have to be -32,768: either alone is an ordinary number.
    pub fn is_invalid(self) -> bool
        ensures { result ≡ eq_mv self invalid }
    {
        self == Mv::INVALID
    }

    // Both components lie in -most..=most.
    pub fn within(self, most: u32) -> bool
        ensures { result ≡ within most self }
    {
        is_short(self.y, most) && is_short(self.x, most)
    }

    pub fn negated(self) -> Mv
        requires { Within 32767 self }
        ensures { result ≡ both neg_ℤ self }
    {
        Mv {
            y: -self.y,
            x: -self.x,
        }
    }

    // One number for both components, the lower half for y. No `From`: that would not say which half.
    pub fn bits(self) -> u32
        ensures { result ≡ mv_bits self }
    {
        half_bits(self.y) as u32 + 65536 * (half_bits(self.x) as u32)
    }

    pub fn of_bits(n: u32) -> Mv
        ensures { result ≡ mv_of n }
    {
        let y = signed_half((n % 65536) as u16);
        let x = signed_half((n / 65536) as u16);
        Mv { y, x }
    }

    // All four bytes at once: two halves would be read one by one.
    pub fn read(s: &[u8], at: usize) -> Mv
        requires { at + 4 ≤ length s.now }
        ensures { result ≡ mv_at s.now at }
    {
        Mv::of_bits(u32_at(s, at))
    }

    pub fn write(self, s: &mut [u8], at: usize)
        requires { at + 4 ≤ length s.old }
        ensures { s.new ≡ put s.old at (mv_bytes self) }
    {
        write_half(s, at, self.y);
        write_half(s, at + 2, self.x);
    }
}
