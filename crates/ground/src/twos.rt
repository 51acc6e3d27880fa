// Two's complement of one byte and of two, both ways.
ghost use Rattle.std.specs.Prelude.{◌≡◌, ◌+◌, ◌*◌, ◌≤◌, ◌<◌, length};
ghost use Rattle.ground.specs.Put.{put};
ghost use Rattle.ground.specs.Twos.{twos8, twos16, bits8, bits16, half_at, half_of};

// The number that a byte holds.
pub fn signed_byte(b: u8) -> i8
    ensures { result ≡ twos8 b }
{
    b.cast_signed()
}

// The byte that holds a number.
pub fn byte_bits(n: i8) -> u8
    ensures { result ≡ bits8 n }
{
    n.cast_unsigned()
}

// The number that 16 bits hold.
pub fn signed_half(n: u16) -> i16
    ensures { result ≡ twos16 n }
{
    n.cast_signed()
}

// The 16 bits that hold a number.
pub fn half_bits(c: i16) -> u16
    ensures { result ≡ bits16 c }
{
    c.cast_unsigned()
}

// The number in the two bytes from `at` on.
pub fn read_half(s: &[u8], at: usize) -> i16
    requires { at + 2 ≤ length s.now }
    ensures { result ≡ half_at s.now at }
{
    i16::from_le_bytes([s[at], s[at + 1]])
}

// A number laid over the two bytes from `at` on.
pub fn write_half(s: &mut [u8], at: usize, c: i16)
    requires { at + 2 ≤ length s.old }
    ensures { s.new ≡ put s.old at (half_of c) }
{
    [s[at], s[at + 1]] = c.to_le_bytes();
}
