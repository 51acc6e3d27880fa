// A candidate goes onto the stack: it makes an equal one heavier, or stands behind the others.
ghost use Rattle.std.specs.Prelude.{◌≡◌, ◌+◌, ◌≤◌, ◌<◌, ◌^◌, get_or};
ghost use Rattle.stack.specs.Code.Found.{live, appended, weightier};
ghost use Rattle.stack.specs.Stack.{place_in, eq_pair, nobody, joined, extended, pushed, raised};
ghost use Rattle.stack.specs.Code.Numbers.{pair_in, found_at, Held, view_at, heft_at, count_at};

use crate::numbers::{COUNT, count_in, pair_bits, put_candidate};
use cells::block::MvPair;

// Where a pair stands among the candidates.
fn seek(s: &[u64], k: u64) -> Option<usize>
    requires { Held s.now }
    ensures { result ≡ place_in (live (found_at s.now)) (pair_in k) }
{
    s[..count_in(s)].iter().position(|other| *other == k)
}

// Behind the others.
fn lay(s: &mut [u64], k: u64, w: u64)
    requires { Held s.old × (count_at s.old < 8) }
    ensures { Held s.new × (found_at s.new ≡ appended (found_at s.old) (record { mv = pair_in k; weight = w })) }
{
    let n = count_in(s);
    put_candidate(s, n, k, w);
    s[COUNT] = (n + 1) as u64;
}

fn add_weight(s: &mut [u64], i: usize, w: u64)
    requires { Held s.old × (i < count_at s.old) × (heft_at s.old + w < 2 ^ 32) }
    ensures { Held s.new × (found_at s.new ≡ weightier w i (found_at s.old)) }
{
    s[8 + i] += w;
}

// By the pair's number. With eight candidates a new one is dropped.
pub fn add_bits(s: &mut [u64], k: u64, w: u64)
    requires { Held s.old × (heft_at s.old + w < 2 ^ 32) }
    ensures { Held s.new × (view_at s.new ≡ joined (view_at s.old) (pair_in k) w)
        × (heft_at s.new ≤ heft_at s.old + w) }
{
    if let Some(i) = seek(s, k) {
        add_weight(s, i, w);
    } else if count_in(s) < 8 {
        lay(s, k, w);
    }
}

pub fn add(s: &mut [u64], p: MvPair, w: u64)
    requires { Held s.old × (heft_at s.old + w < 2 ^ 32) }
    ensures { Held s.new × (view_at s.new ≡ joined (view_at s.old) p w)
        × (heft_at s.new ≤ heft_at s.old + w) }
{
    add_bits(s, pair_bits(p), w);
}

// A candidate of the extra search has the least weight.
pub fn push(s: &mut [u64], p: MvPair)
    requires { Held s.old × (count_at s.old < 8) }
    ensures { Held s.new × (count_at s.new ≡ count_at s.old + 1)
        × (view_at s.new ≡ pushed (view_at s.old) p) }
{
    lay(s, pair_bits(p), 2);
}

// Only where it is new.
pub fn add_new(s: &mut [u64], p: MvPair)
    requires { Held s.old × (count_at s.old < 8) }
    ensures { Held s.new × (count_at s.new ≤ count_at s.old + 1)
        × (view_at s.new ≡ extended (view_at s.old) p) }
{
    let k = pair_bits(p);
    if seek(s, k).is_none() {
        lay(s, k, 2);
    }
}

// Whether the first candidate's pair is p.
pub fn is_first(s: &[u64], p: MvPair) -> bool
    requires { Held s.now × (0 < count_at s.now) }
    ensures { result ≡ eq_pair (get_or (live (found_at s.now)) 0 nobody).mv p }
{
    s[0] == pair_bits(p)
}

// What the nearest neighbours gave outweighs all that comes later.
pub const REF_CAT_LEVEL: u64 = 640;

// Every candidate gains weight.
pub fn raise(s: &mut [u64], w: u64)
    requires { Held s.old × (w ≤ 640) × (heft_at s.old + 5120 < 2 ^ 32) }
    ensures { Held s.new × (count_at s.new ≡ count_at s.old)
        × (view_at s.new ≡ raised w (view_at s.old))
        × (heft_at s.new ≤ heft_at s.old + 5120) }
{
    for i in 0..count_in(s) {
        s[8 + i] += w;
    }
}
