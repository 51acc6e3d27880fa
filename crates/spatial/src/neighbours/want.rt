// What a search looks for, and what a neighbour gives to it.
ghost use Rattle.std.specs.Prelude.{◌≡◌};
ghost use Rattle.spatial.specs.neighbours.Want.{lent_of, single_of, compound_of, offer_of};

use cells::block::{Block, MvPair, RefPair};
use cells::cell::Ref;
use vector::mv::Mv;

// The references, the second of them NONE in a single search; and for each the global vector that
// takes the place of a neighbour's own, INVALID where there is none.
#[derive(Clone, Copy)]
pub struct Want {
    pub refs: RefPair,
    pub gmv: MvPair,
}

// The vector that a neighbour lends: the global one in place of its own where its mode is global.
fn lent(global: bool, g: Mv, own: Mv) -> Mv
    ensures { result ≡ lent_of global g own }
{
    if global && !g.is_invalid() { g } else { own }
}

// A single search takes the first of a neighbour's two lists that has its reference.
fn single(k: Block, global: bool, r: Ref, g: Mv) -> Option<MvPair>
    ensures { result ≡ single_of k global r g }
{
    let mv = k.mv;
    let refs = k.refs;
    if refs.first == r {
        let first = lent(global, g, mv.first);
        let second = Mv::ZERO;
        return Some(MvPair { first, second });
    }
    if refs.second == r {
        let first = lent(global, g, mv.second);
        let second = Mv::ZERO;
        return Some(MvPair { first, second });
    }
    None
}

// A compound search takes both, where both are its own.
fn compound(k: Block, global: bool, q: Want) -> Option<MvPair>
    ensures { result ≡ compound_of k global q }
{
    let mv = k.mv;
    let refs = k.refs;
    if refs.first != q.refs.first || refs.second != q.refs.second {
        return None;
    }
    let first = lent(global, q.gmv.first, mv.first);
    let second = lent(global, q.gmv.second, mv.second);
    Some(MvPair { first, second })
}

// An intra block, whose first vector is INVALID, gives nothing.
pub fn offered(k: Block, q: Want) -> Option<MvPair>
    ensures { result ≡ offer_of k q }
{
    if k.mv.first.is_invalid() {
        return None;
    }
    let global = k.mf % 2 == 1;
    if q.refs.second == Ref::NONE {
        return single(k, global, q.refs.first, q.gmv.first);
    }
    compound(k, global, q)
}
