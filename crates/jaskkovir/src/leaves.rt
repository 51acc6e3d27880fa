// Vectors and hint distances. A vector comes back as one number, since C has no struct in common with
// us: y in the low 16 bits, x above.
ghost use Rattle.std.specs.Prelude.{◌≡◌, ◌^◌, ◌≤◌, ◌<◌, nat_abs};
ghost use Rattle.vector.specs.Vector.{Within, both, mv_bits};
ghost use Rattle.vector.specs.Projection.{projected};
ghost use Rattle.vector.specs.Precision.{lowered};
ghost use Rattle.vector.specs.Hint.{distance};
ghost use Rattle.jaskkovir.specs.Leaf.{mv};

use vector::hint::get_poc_diff;
use vector::mv::Mv;
use vector::precision::fix_mv_precision;
use vector::projection::mv_projection;

pub fn jaskkovir_mv_projection(y: i16, x: i16, num: i16, den: u32) -> u32
    requires { Within 4095 (mv y x) × (nat_abs num ≤ 31) × (0 < den) × (den < 32) }
    ensures { result ≡ mv_bits (both (projected num den) (mv y x)) }
{
    mv_projection(Mv { y, x }, num, den).bits()
}

pub fn jaskkovir_fix_mv_precision(y: i16, x: i16, integer: bool, hp: bool) -> u32
    requires { Within 16384 (mv y x) }
    ensures { result ≡ mv_bits (both (lowered integer hp) (mv y x)) }
{
    fix_mv_precision(Mv { y, x }, integer, hp).bits()
}

pub fn jaskkovir_get_poc_diff(bits: u32, a: u32, b: u32) -> i16
    requires { (bits ≤ 8) × (a < 2 ^ bits) × (b < 2 ^ bits) }
    ensures { result ≡ distance bits a b }
{
    get_poc_diff(bits, a, b)
}
