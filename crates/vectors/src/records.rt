// The same search over eight records, held to what the search over bytes came to.
ghost use Rattle.std.specs.Prelude.{◌<◌, ◌≤◌, length};

use crate::desk::{Desk, Role, part};
use cells::block::MvPair;
use ground::read::u32_at;
use ground::write::put_u32;
use lines::print;
use search::candidates::owned::find_owned;
use search::candidates::plan::{SearchAnswer, planned};
use search::front::ask::Ask;
use search::lent_bytes::question::ask_at;
use search::source::Source;
use stack::candidate::Candidate;
use std::{array, io};
use vector::mv::Mv;

const SLOTS: usize = 8;

const SLOT: usize = 12;

const BYTES: usize = 96;

const QUESTION: usize = 24;

fn record_at(stack: &[u8], i: usize) -> Candidate
    requires { (i < 8) × (96 ≤ length stack.now) }
{
    let first = Mv::read(stack, SLOT * i);
    let second = Mv::read(stack, SLOT * i + 4);
    let mv = MvPair { first, second };
    Candidate {
        mv,
        weight: u32_at(stack, SLOT * i + 8),
    }
}

// The records that the bytes of a lent stack stand for.
fn records_in(stack: &[u8]) -> [Candidate; SLOTS]
    requires { 96 ≤ length stack.now }
{
    array::from_fn(|i| record_at(stack, i))
}

fn put_record(stack: &mut [u8], i: usize, c: Candidate)
    requires { (i < 8) × (96 ≤ length stack.old) }
{
    let mv = c.mv;
    mv.first.write(stack, SLOT * i);
    mv.second.write(stack, SLOT * i + 4);
    put_u32(stack, SLOT * i + 8, c.weight);
}

fn put_records(stack: &mut [u8], l: &[Candidate; SLOTS])
    requires { 96 ≤ length stack.old }
{
    for (i, c) in l.iter().enumerate() {
        put_record(stack, i, *c);
    }
}

// Whether the records are those whose bytes the stack has.
fn are_in(l: [Candidate; SLOTS], stack: &[u8]) -> bool {
    let mut laid = [0u8; BYTES];
    put_records(&mut laid, &l);
    laid.as_slice() == stack
}

fn source_in(desk: &Desk) -> Source<'_> {
    Source {
        frame: part(desk, Role::Frame),
        tile: part(desk, Role::Tile),
        recs: part(desk, Role::Records),
        proj: part(desk, Role::Proj),
    }
}

fn is_answered(desk: &Desk, a: Ask, answer: u8, found: &[u8]) -> bool {
    let p = planned(SLOTS, source_in(desk), a);
    match p.answer {
        SearchAnswer::Refused(number) => number == answer,
        SearchAnswer::Found(count, context) => answer == 0 && [count, context].as_slice() == found,
    }
}

fn are_left(desk: &Desk, a: Ask, lent: &[u8], stack: &[u8]) -> bool
    requires { 96 ≤ length lent.now }
{
    let l = find_owned(records_in(lent), source_in(desk), a);
    are_in(l, stack)
}

fn agree(desk: &Desk, answer: u8, stack: &[u8], found: &[u8]) -> bool {
    let ask = part(desk, Role::Ask);
    let lent = part(desk, Role::Stack);
    if ask.len() < QUESTION || lent.len() < BYTES {
        return true;
    }
    let a = ask_at(ask);
    is_answered(desk, a, answer, found) && are_left(desk, a, lent, stack)
}

// In the answer, in count and context, and in every byte of the eight records, from those that were
// lent. Where they don't agree a line says so, which is none of the list.
pub(crate) fn compare(
    rt: &impl Print,
    desk: &Desk,
    answer: u8,
    stack: &[u8],
    found: &[u8],
) -> io::Result<()> {
    if !agree(desk, answer, stack, found) {
        print::word(rt, b"records differ")?;
        print::end(rt)?;
    }
    Ok(())
}
