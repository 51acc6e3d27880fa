// What a search has found so far, in 20 lent numbers: eight pairs of vectors, the eight weights, how
// many candidates there are, and three flags. Nothing is meant by a pair or a weight behind the
// candidates. The numbers are lent from part to part of a search: while a struct went by value, it was
// copied at each call, and a search took three times as long (docs/performance-diary.md).
ghost use Rattle.std.specs.Prelude.{◌≡◌, ◌%◌, ◌^◌, ◌<◌, length, set};
ghost use Rattle.stack.specs.Code.Found.{with_stack};
ghost use Rattle.stack.specs.Stack.{nothing};
ghost use Rattle.stack.specs.Code.Numbers.{pair_bits, pair_in, cand_at, found_at, flag_in, flagged, place_of, Held, view_at, count_at};

use crate::candidate::Candidate;
use cells::block::MvPair;
use vector::mv::Mv;

pub const NUMBERS: usize = 20;

pub(crate) const COUNT: usize = 16;

// That a matching neighbour's mode has a new vector; that a neighbour above matched; one to the left.
#[derive(Clone, Copy)]
pub enum Flag {
    NewMv,
    Above,
    Left,
}

// Two vectors in one number, so that two pairs are compared at once. No `From`: neither type is of this
// crate.
pub fn pair_bits(p: MvPair) -> u64
    ensures bits { result ≡ pair_bits p }
    ensures back { pair_in result ≡ p }
{
    let first = p.first;
    let second = p.second;
    first.bits() as u64 + 4294967296 * (second.bits() as u64)
}

pub(crate) fn pair_in(n: u64) -> MvPair
    ensures { result ≡ pair_in n }
{
    let first = Mv::of_bits((n % 4294967296) as u32);
    let second = Mv::of_bits((n / 4294967296) as u32);
    MvPair { first, second }
}

pub fn count_in(s: &[u64]) -> usize
    requires { length s.now ≡ 20 }
    ensures { result ≡ count_at s.now }
{
    s[COUNT] as usize
}

// Candidate i. A weight has 32 bits wherever it is added to.
pub fn candidate_in(s: &[u64], i: usize) -> Candidate
    requires { (length s.now ≡ 20) × (i < 8) }
    ensures { result ≡ record { mv = (cand_at s.now i).mv; weight = (cand_at s.now i).weight % 2 ^ 32 } }
{
    let mv = pair_in(s[i]);
    Candidate {
        mv,
        weight: (s[8 + i] % 4294967296) as u32,
    }
}

// Candidate i becomes the one of this pair and weight.
pub(crate) fn put_candidate(s: &mut [u64], i: usize, k: u64, w: u64)
    requires { Held s.old × (i < 8) }
    ensures { Held s.new
        × (found_at s.new ≡ with_stack (found_at s.old) (set (found_at s.old).stack i (record { mv = pair_in k; weight = w }))) }
{
    s[i] = k;
    s[8 + i] = w;
}

fn place_of(f: Flag) -> usize
    ensures { (result ≡ place_of f) × (result < 20) }
{
    match f {
        Flag::NewMv => 17,
        Flag::Above => 18,
        Flag::Left => 19,
    }
}

pub fn flag_in(s: &[u64], f: Flag) -> bool
    requires { length s.now ≡ 20 }
    ensures { result ≡ flag_in f (found_at s.now) }
{
    s[place_of(f)] != 0
}

pub fn put_flag(s: &mut [u64], f: Flag)
    requires { length s.old ≡ 20 }
    ensures { found_at s.new ≡ flagged f (found_at s.old) }
{
    s[place_of(f)] = 1;
}

pub fn clear(s: &mut [u64])
    requires { length s.old ≡ 20 }
    ensures { Held s.new × (count_at s.new ≡ 0) × (view_at s.new ≡ nothing) }
{
    s[COUNT] = 0;
    s[17] = 0;
    s[18] = 0;
    s[19] = 0;
}
