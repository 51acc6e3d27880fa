// How far one frame lies from another, by their order hints.
ghost use Rattle.std.specs.Prelude.{◌≡◌, ◌^◌, ◌≤◌, ◌<◌};
ghost use Rattle.vector.specs.Hint.{distance};

use ground::sign::with_sign;

pub fn get_poc_diff(bits: u32, a: u32, b: u32) -> i16
    requires { (bits ≤ 8) × (a < 2 ^ bits) × (b < 2 ^ bits) }
    ensures { result ≡ distance bits a b }
{
    if bits == 0 {
        return 0;
    }
    let whole = 1u32 << bits;
    let d = (a + whole - b) % whole;
    if d < whole / 2 {
        with_sign(false, d)
    } else {
        with_sign(true, whole - d)
    }
}
