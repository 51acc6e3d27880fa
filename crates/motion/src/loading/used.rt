// The references that a load uses: those selected that aren't skipped.
ghost use Rattle.std.specs.Prelude.{◌≡◌, [], ◌<◌};
ghost use Rattle.motion.specs.loading.Used.{used_as, held_as, uses_of};
ghost use Rattle.motion.specs.Code.Needs.{pushed, taken_in};

use crate::landing::land::Motion;
use frame::mfmv::Mfmv;
use frame::record::Frame;

const PLACES: usize = 3;

// The number of its field, and how its cells move.
#[derive(Clone, Copy)]
pub struct Used {
    pub field: usize,
    pub motion: Motion,
}

// The first n of at are used. Stays an array with its count: a library crate has no heap.
#[derive(Clone, Copy)]
pub struct Uses {
    pub n: usize,
    pub at: [Used; 3],
}

fn use_of(m: Mfmv, z: i16) -> Used
    ensures { result ≡ used_as m z }
{
    let apart = m.ref2ref;
    let motion = Motion {
        cur: z,
        apart,
        back: m.reference < 4,
    };
    Used {
        field: m.reference as usize,
        motion,
    }
}

fn push(us: Uses, u: Used) -> Uses
    requires { us.n < 3 }
    ensures { result ≡ pushed us u }
{
    let n = us.n;
    let mut at = us.at;
    at[n] = u;
    Uses { n: n + 1, at }
}

fn take_in(us: Uses, m: Mfmv) -> Uses
    requires { us.n < 3 }
    ensures { result ≡ taken_in us m m.ref2cur }
{
    let cur = m.ref2cur;
    match cur {
        None => us,
        Some(z) => push(us, use_of(m, z)),
    }
}

#[tactic(auto, unfolding(crate::specs::loading::Used::held_as))]
fn no_uses() -> Uses
    ensures { result ≡ held_as [] }
{
    let motion = Motion {
        cur: 0,
        apart: [0; 7],
        back: false,
    };
    let none = Used { field: 0, motion };
    Uses {
        n: 0,
        at: [none; 3],
    }
}

// A record that isn't well formed may count more than its three places.
pub fn uses_of(f: Frame) -> Uses
    ensures { result ≡ uses_of f }
{
    let mfmvs = f.mfmvs;
    let n = PLACES.min(f.n_mfmvs);
    let mut us = no_uses();
    for i in 0..n {
        us = take_in(us, mfmvs[i]);
    }
    us
}
