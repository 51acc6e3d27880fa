// Candidates are held to what the frame's surroundings allow.
ghost use Rattle.std.specs.Prelude.{◌≡◌};
ghost use Rattle.stack.specs.Code.Numbers.{Held, view_at, count_at};
ghost use Rattle.stack.specs.Code.Clamp.{lowest, highest, bounds_of, Ordered, clipped_mv, clipped_pair};
ghost use Rattle.stack.specs.Clamp.{clamped};

use crate::numbers::{count_in, pair_bits, pair_in};
use cells::block::MvPair;
use vector::mv::Mv;

// How far a vector may point, in eighths of a sample: up, down, to the left and to the right.
#[derive(Clone, Copy)]
pub struct Reach {
    pub up: u32,
    pub down: u32,
    pub left: u32,
    pub right: u32,
}

// The least and the most that a component may be, of y and of x.
#[derive(Clone, Copy)]
struct Bounds {
    up: i16,
    down: i16,
    left: i16,
    right: i16,
}

// A reach as a component's bound, either way: it may lie past what a component holds. Two functions of a
// line each: one for both would take the sign and the most.
fn low(n: u32) -> i16
    ensures { result ≡ lowest n }
{
    -(n.min(32768) as i32) as i16
}

fn high(n: u32) -> i16
    ensures { result ≡ highest n }
{
    n.min(32767) as i16
}

// Once for all candidates.
fn bounds_of(r: Reach) -> Bounds
    ensures { result ≡ bounds_of r }
{
    Bounds {
        up: low(r.up),
        down: high(r.down),
        left: low(r.left),
        right: high(r.right),
    }
}

fn clamp_mv(v: Mv, b: Bounds) -> Mv
    requires { Ordered b }
    ensures { result ≡ clipped_mv b v }
{
    let y = v.y.clamp(b.up, b.down);
    let x = v.x.clamp(b.left, b.right);
    Mv { y, x }
}

fn clamp_pair(p: MvPair, b: Bounds) -> MvPair
    requires { Ordered b }
    ensures { result ≡ clipped_pair b p }
{
    let first = clamp_mv(p.first, b);
    let second = clamp_mv(p.second, b);
    MvPair { first, second }
}

// Both vectors of each candidate; a single search's second, ZERO, stays.
pub fn clamp(s: &mut [u64], r: Reach)
    requires { Held s.old }
    ensures { Held s.new × (count_at s.new ≡ count_at s.old)
        × (view_at s.new ≡ clamped r (view_at s.old)) }
{
    let b = bounds_of(r);
    for i in 0..count_in(s) {
        s[i] = pair_bits(clamp_pair(pair_in(s[i]), b));
    }
}
