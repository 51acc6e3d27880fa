// What a compound search gathers: for each of its references up to two vectors of that reference, and
// up to two of others.
ghost use Rattle.std.specs.Prelude.{◌≡◌, true, ◌<◌};
ghost use Rattle.vector.specs.Vector.{Within};
ghost use Rattle.cells.specs.Block.{well_block};
ghost use Rattle.stack.specs.Code.Numbers.{view_at, count_at, Held};
ghost use Rattle.cells.specs.Cell.{is_ref};
ghost use Rattle.search.specs.Code.Pool.{held_in, pool_of, pools_of};
ghost use Rattle.search.specs.extra.Pool.{pushed, nothing, put, gathered, gathered_by, chosen, pair_at, completed};

use crate::extra::lists::{Listed, Single};
use cells::block::{Block, MvPair, RefPair};
use stack::add::{is_first, push};
use stack::numbers::count_in;
use vector::mv::Mv;

// At most two vectors, in the order in which they were found.
#[derive(Clone, Copy)]
pub enum Two {
    Empty,
    One(Mv),
    Both(Mv, Mv),
}

// same: of the pool's own reference; other: of another, turned.
#[derive(Clone, Copy)]
pub struct Pool {
    pub same: Two,
    pub other: Two,
}

#[derive(Clone, Copy)]
pub struct Pools {
    pub first: Pool,
    pub second: Pool,
}

pub fn no_pools() -> Pools
    ensures { pools_of result ≡ nothing }
{
    let none = Two::Empty;
    let pool = Pool {
        same: none,
        other: none,
    };
    Pools {
        first: pool,
        second: pool,
    }
}

impl Two {
    // A third is dropped.
    fn push(self, v: Mv) -> Two
        ensures { held_in result ≡ pushed (held_in self) v }
    {
        match self {
            Two::Empty => Two::One(v),
            Two::One(a) => Two::Both(a, v),
            Two::Both(a, b) => Two::Both(a, b),
        }
    }
}

impl Pool {
    // own for the pool's own reference, else the turned one.
    fn put_in(self, is_own: bool, own: Mv, turned: Mv) -> Pool
        ensures { pool_of result ≡ put is_own own turned (pool_of self) }
    {
        if is_own {
            return Pool {
                same: self.same.push(own),
                other: self.other,
            };
        }
        Pool {
            same: self.same,
            other: self.other.push(turned),
        }
    }

    // Two vectors of the pool: its own first, then the others, then the global one.
    fn choose(self, g: Mv) -> (Mv, Mv)
        ensures { (result.0 ≡ chosen (pool_of self) g 0) × (result.1 ≡ chosen (pool_of self) g 1) }
    {
        match (self.same, self.other) {
            (Two::Both(a, b), _) => (a, b),
            (Two::One(a), Two::Both(b, _)) => (a, b),
            (Two::One(a), Two::One(b)) => (a, b),
            (Two::One(a), Two::Empty) => (a, g),
            (Two::Empty, Two::Both(a, b)) => (a, b),
            (Two::Empty, Two::One(a)) => (a, g),
            (Two::Empty, Two::Empty) => (g, g),
        }
    }
}

// What a compound search looks for: two references.
#[derive(Clone, Copy)]
pub struct Compound<'a> {
    pub biases: &'a [u8; 7],
    pub refs: RefPair,
    pub ghost first: { is_ref refs.first ≡ true },
    pub ghost second: { is_ref refs.second ≡ true },
}

impl Compound<'_> {
    // One list of a neighbour goes to both pools.
    fn gather_list(self, l: Listed, p: Pools) -> Pools
        requires { (is_ref l.reference ≡ true) × Within 16383 l.mv }
        ensures { pools_of result ≡ gathered self.entry.biases.now self.entry.refs l (pools_of p) }
    {
        let biases = self.biases;
        let refs = self.refs;
        let is_first = l.reference == refs.first;
        // The second pool has a vector as its own only where the first doesn't.
        let is_second = !is_first && l.reference == refs.second;
        let one = Single {
            biases,
            reference: refs.first,
        };
        let two = Single {
            biases,
            reference: refs.second,
        };
        Pools {
            first: p.first.put_in(is_first, l.mv, one.turn(l)),
            second: p.second.put_in(is_second, l.mv, two.turn(l)),
        }
    }

    pub(crate) fn gather(self, k: Block, p: Pools) -> Pools
        requires { well_block k ≡ true }
        ensures { pools_of result ≡ gathered_by self.entry.biases.now self.entry.refs k (pools_of p) }
    {
        let mv = k.mv;
        let refs = k.refs;
        if !refs.first.is_ref() {
            return p;
        }
        let one = Listed {
            reference: refs.first,
            mv: mv.first,
        };
        let q = self.gather_list(one, p);
        if !refs.second.is_ref() {
            return q;
        }
        let two = Listed {
            reference: refs.second,
            mv: mv.second,
        };
        self.gather_list(two, q)
    }
}

// The two pairs that the pools make.
pub fn pairs(p: Pools, g: MvPair) -> (MvPair, MvPair)
    ensures { (result.0 ≡ pair_at (pools_of p) g 0) × (result.1 ≡ pair_at (pools_of p) g 1) }
{
    let (first, third) = p.first.choose(g.first);
    let (second, fourth) = p.second.choose(g.second);
    (
        MvPair { first, second },
        MvPair {
            first: third,
            second: fourth,
        },
    )
}

// Two candidates in all, whatever was found: both pairs, or one of them behind the one candidate.
pub fn complete(s: &mut [u64], p: MvPair, q: MvPair)
    requires { Held s.old × (count_at s.old < 2) }
    ensures { Held s.new × (count_at s.new ≡ 2) × (view_at s.new ≡ completed p q (view_at s.old)) }
{
    if count_in(s) == 0 {
        push(s, p);
        push(s, q);
    } else if is_first(s, p) {
        push(s, q);
    } else {
        push(s, p);
    }
}
