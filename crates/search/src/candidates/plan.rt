// A search's result by value, and what it leaves in each lent record.
ghost use Rattle.std.specs.Prelude.{◌≡◌, ◌<◌};
ghost use Rattle.ground.specs.Pick.{pick};
ghost use Rattle.stack.specs.Stack.{nobody};
ghost use Rattle.stack.specs.Code.Found.{live};
ghost use Rattle.stack.specs.Code.Numbers.{found_at, Held};
ghost use Rattle.search.specs.Code.Find.{finding};
ghost use Rattle.search.specs.Find.{refused};
ghost use Rattle.search.specs.candidates.Plan.{eight, plan_for, plan_of, lacking, slot_of};

use crate::find::{Findings, find};
use crate::front::ask::Ask;
use crate::source::Source;
use cells::block::MvPair;
use layout::frame_bytes::FRAME;
use layout::tile_bytes::TILE;
use stack::candidate::Candidate;
use stack::numbers::{NUMBERS, candidate_in, count_in};
use vector::mv::Mv;

// A refusal number, or how many candidates there are, and their context.
#[derive(Clone, Copy)]
pub enum SearchAnswer {
    Refused(u8),
    Found(u8, u8),
}

// The candidates in eight records, zero ones behind them; whether second vectors count; the vector that a
// single search has in the slots below two that no candidate takes. The count stands beside the records,
// since memory is fixed, and `slot_of` and `plan_for` have both.
#[derive(Clone, Copy)]
pub struct Listing {
    pub stack: [Candidate; 8],
    pub count: usize,
    pub compound: bool,
    pub fill: Mv,
}

// n records are stored to: eight, or none where the search is refused.
#[derive(Clone, Copy)]
pub struct Plan {
    pub n: usize,
    pub found: Listing,
    pub answer: SearchAnswer,
}

const SLOTS: usize = 8;

fn no_candidate() -> Candidate
    ensures { result ≡ nobody }
{
    let first = Mv::ZERO;
    let second = Mv::ZERO;
    let mv = MvPair { first, second };
    Candidate { mv, weight: 0 }
}

fn list(s: &[u64]) -> [Candidate; 8]
    requires { Held s.now }
    ensures { result ≡ eight (live (found_at s.now)) }
{
    let none = no_candidate();
    let mut l = [none; 8];
    for i in 0..count_in(s) {
        l[i] = candidate_in(s, i);
    }
    l
}

fn refusal(number: u8, compound: bool) -> Plan
    ensures { result ≡ plan_for compound (refused number) }
{
    let none = no_candidate();
    let stack = [none; 8];
    let fill = Mv::ZERO;
    let found = Listing {
        stack,
        count: 0,
        compound,
        fill,
    };
    let answer = SearchAnswer::Refused(number);
    Plan {
        n: 0,
        found,
        answer,
    }
}

fn acceptance(r: Findings, s: &[u64], compound: bool) -> Plan
    requires { Held s.now × (r.answer ≡ 0) }
    ensures { result ≡ plan_for compound (finding r (found_at s.now)) }
{
    let stack = list(s);
    let count = count_in(s);
    let fill = r.fill;
    let found = Listing {
        stack,
        count,
        compound,
        fill,
    };
    let answer = SearchAnswer::Found(count as u8, r.context);
    Plan {
        n: SLOTS,
        found,
        answer,
    }
}

// Lengths alone, so that a part that is too short is never read.
fn is_lacking(slots: usize, frame: usize, tile: usize) -> bool
    ensures { result ≡ lacking slots frame tile }
{
    slots < SLOTS || frame < FRAME || tile < TILE
}

// The whole search, by value: slots is how many records are lent.
pub fn planned(slots: usize, from: Source<'_>, a: Ask) -> Plan
    ensures { result ≡ plan_of slots from.entry.frame.now from.entry.tile.now from.entry.recs.now from.entry.proj.now a }
{
    let refs = a.refs;
    let compound = refs.second.is_ref();
    if is_lacking(slots, from.frame.len(), from.tile.len()) {
        return refusal(4, compound);
    }
    let mut s = [0u64; NUMBERS];
    let r = find(from, a, &mut s);
    if r.answer != 0 {
        return refusal(r.answer, compound);
    }
    acceptance(r, &s, compound)
}

// A single search leaves second vectors alone.
fn second_of(compound: bool, old: Mv, new: Mv) -> Mv
    ensures { result ≡ pick compound new old }
{
    if compound { new } else { old }
}

// What record i holds afterwards, from what it held.
pub fn slot(old: Candidate, f: Listing, i: usize) -> Candidate
    requires { i < 8 }
    ensures { result ≡ slot_of old f i }
{
    let was = old.mv;
    if i < f.count {
        let stack = f.stack;
        let c = stack[i];
        let is = c.mv;
        let first = is.first;
        let second = second_of(f.compound, was.second, is.second);
        let mv = MvPair { first, second };
        return Candidate {
            mv,
            weight: c.weight,
        };
    }
    if f.compound {
        return old;
    }
    if i < 2 {
        let first = f.fill;
        let second = was.second;
        let mv = MvPair { first, second };
        return Candidate {
            mv,
            weight: old.weight,
        };
    }
    old
}
