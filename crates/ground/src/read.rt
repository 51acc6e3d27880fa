// Numbers out of lent bytes, the low byte first.
ghost use Rattle.std.specs.Prelude.{◌≡◌, ◌+◌, ◌*◌, ◌≤◌, min, ◌∷◌, [], length, get_or};
ghost use Rattle.ground.specs.Little.{four_at, four_bytes, held16, two_at};

pub fn one_at(s: &[u8], at: usize) -> usize
    requires { at + 1 ≤ length s.now }
    ensures { result ≡ get_or s.now at 0 }
{
    s[at] as usize
}

pub fn two_at(s: &[u8], at: usize) -> usize
    requires { at + 2 ≤ length s.now }
    ensures { result ≡ two_at s.now at }
{
    u16::from_le_bytes([s[at], s[at + 1]]) as usize
}

pub fn u32_at(s: &[u8], at: usize) -> u32
    requires { at + 4 ≤ length s.now }
    ensures { result ≡ four_at s.now at }
{
    word_at(s, at)
}

// Four bytes in one number, to be taken apart again.
pub fn word_at(s: &[u8], at: usize) -> u32
    requires { at + 4 ≤ length s.now }
    ensures { four_bytes result
        ≡ get_or s.now at 0 ∷ get_or s.now (at + 1) 0
        ∷ get_or s.now (at + 2) 0 ∷ get_or s.now (at + 3) 0 ∷ [] }
{
    u32::from_le_bytes([s[at], s[at + 1], s[at + 2], s[at + 3]])
}

pub fn size_at(s: &[u8], at: usize) -> usize
    requires { at + 4 ≤ length s.now }
    ensures { result ≡ four_at s.now at }
{
    u32_at(s, at) as usize
}

// A number of four bytes, for a field of one. One that doesn't fit becomes 255 and not its low
// byte, which the field might take.
pub fn byte_at(s: &[u8], at: usize) -> u8
    requires { at + 4 ≤ length s.now }
    ensures { result ≡ min (four_at s.now at) 255 }
{
    u32_at(s, at).min(255) as u8
}

// A signed number of four bytes, for a field of two. One that doesn't fit becomes the nearest that
// does and not its low half, which the field might take.
pub fn i16_at(s: &[u8], at: usize) -> i16
    requires { at + 4 ≤ length s.now }
    ensures { result ≡ held16 (four_at s.now at) }
{
    u32_at(s, at).cast_signed().clamp(-32768, 32767) as i16
}
