// A vector scaled from one distance in time to another.
ghost use Rattle.std.specs.Prelude.{◌≡◌, ◌*◌, ◌≤◌, ◌<◌, min, nat_abs};
ghost use Rattle.ground.specs.Sign.{round2};
ghost use Rattle.vector.specs.Vector.{Within, both};
ghost use Rattle.vector.specs.Projection.{div_mult, projected};

use crate::mv::Mv;
use ground::sign::{magnitude, negative, with_sign};

// The standard's table Div_Mult, which is floor(16384 / den): a division costs less than an array
// that is laid anew at each call.
fn div_mult(den: u32) -> u32
    requires { (0 < den) × (den < 32) }
    ensures { result ≡ div_mult den }
{
    16384 / den
}

// The magnitude of a component of magnitude c, scaled by num / den, rounded and clipped.
fn scaled(c: u32, num: u32, den: u32) -> u32
    requires { (c ≤ 4095) × (num ≤ 31) × (0 < den) × (den < 32) }
    ensures { result ≡ min (round2 14 (c * (num * div_mult den))) 16383 }
{
    let frac = num * div_mult(den);
    let near = (c * frac + 8192) >> 14;
    near.min(16383)
}

fn project(c: i16, num: i16, den: u32) -> i16
    requires { (nat_abs c ≤ 4095) × (nat_abs num ≤ 31) × (0 < den) × (den < 32) }
    ensures { result ≡ projected num den c }
{
    let m = scaled(magnitude(c), magnitude(num), den);
    with_sign(negative(c) != negative(num), m)
}

pub fn mv_projection(mv: Mv, num: i16, den: u32) -> Mv
    requires { Within 4095 mv × (nat_abs num ≤ 31) × (0 < den) × (den < 32) }
    ensures { result ≡ both (projected num den) mv }
{
    let y = project(mv.y, num, den);
    let x = project(mv.x, num, den);
    Mv { y, x }
}
