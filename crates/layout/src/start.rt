// The first bytes of a lent part, by value.
ghost use Rattle.std.specs.Prelude.{◌≡◌, ◌≤◌, length, take};

pub fn first_bytes<const N: usize>(s: &[u8]) -> [u8; N]
    requires { N ≤ length s.now }
    ensures { result ≡ take N s.now }
{
    let mut to = [0u8; N];
    to.copy_from_slice(&s[..N]);
    to
}
