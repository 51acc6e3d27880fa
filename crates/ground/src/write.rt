// Numbers laid over bytes, the low byte first.
ghost use Rattle.std.specs.Prelude.{◌≡◌, ◌+◌, ◌*◌, ◌≤◌, length};
ghost use Rattle.ground.specs.Put.{put};
ghost use Rattle.ground.specs.Little.{four_bytes, fours};

// The low four bytes of a number: who has a larger one sees to it that nothing is lost.
pub fn put_size(s: &mut [u8], at: usize, n: usize)
    requires { at + 4 ≤ length s.old }
    ensures { s.new ≡ put s.old at (four_bytes n) }
{
    [s[at], s[at + 1], s[at + 2], s[at + 3], ..] = n.to_le_bytes();
}

pub fn put_u32(s: &mut [u8], at: usize, n: u32)
    requires { at + 4 ≤ length s.old }
    ensures { s.new ≡ put s.old at (four_bytes n) }
{
    put_size(s, at, n as usize);
}

// Numbers of four bytes each, one behind the other.
pub fn put_sizes(s: &mut [u8], at: usize, ns: &[usize])
    requires { at + 4 * length ns.now ≤ length s.old }
    ensures { s.new ≡ put s.old at (fours ns.now) }
{
    for (i, n) in ns.iter().enumerate() {
        put_size(s, at + 4 * i, *n);
    }
}

pub fn put_bytes(s: &mut [u8], at: usize, bs: &[u8])
    requires { at + length bs.now ≤ length s.old }
    ensures { s.new ≡ put s.old at bs.now }
{
    s[at..at + bs.len()].copy_from_slice(bs);
}
