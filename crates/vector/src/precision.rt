// A vector at the precision that the frame header asks for.
ghost use Rattle.std.specs.Prelude.{◌≡◌, ◌&&◌, not, ◌≤◌, nat_abs};
ghost use Rattle.vector.specs.Vector.{Within, both};
ghost use Rattle.vector.specs.Precision.{lower_mag, lowered};

use crate::mv::Mv;
use ground::sign::{magnitude, negative, with_sign};

fn lower_magnitude(m: u32, integer: bool, hp: bool) -> u32
    requires { m ≤ 16384 }
    ensures { (result ≡ lower_mag integer hp m) × (result ≤ 16384) }
{
    if integer {
        (m + 3) / 8 * 8
    } else if hp {
        m
    } else {
        m - m % 2
    }
}

fn lower(c: i16, integer: bool, hp: bool) -> i16
    requires { nat_abs c ≤ 16384 }
    ensures { result ≡ lowered integer hp c }
{
    let m = lower_magnitude(magnitude(c), integer, hp);
    with_sign(negative(c), m)
}

// At high precision, where integer vectors aren't asked for, a vector stays as it is.
fn keeps(integer: bool, hp: bool) -> bool
    ensures { result ≡ (hp && not integer) }
{
    hp && !integer
}

pub fn fix_mv_precision(mv: Mv, integer: bool, hp: bool) -> Mv
    requires { Within 16384 mv }
    ensures { result ≡ both (lowered integer hp) mv }
{
    if keeps(integer, hp) {
        return mv;
    }
    let y = lower(mv.y, integer, hp);
    let x = lower(mv.x, integer, hp);
    Mv { y, x }
}
