// The inner functions under the exported ones. A question outside what a function takes prints its
// number alone, which is no line of the list.
use crate::commands::Leaf;
use crate::desk::{Desk, Role, part};
use crate::numbers::{byte, half, nth, word};
use cells::block::Block;
use cells::cell::{Cell, Ref};
use cells::size::dimensions;
use ground::sign::magnitude;
use lines::print;
use std::io;
use vector::hint::get_poc_diff;
use vector::mv::Mv;
use vector::precision::fix_mv_precision;
use vector::projection::mv_projection;

pub(crate) fn leaf(rt: &impl Print, desk: &Desk, function: Leaf, n: &[usize]) -> io::Result<()> {
    print::start(rt, byte(nth(n, 0)))?;
    match function {
        Leaf::Projection => projection(rt, vector_in(n), half(nth(n, 3)), word(nth(n, 4)))?,
        Leaf::Precision => precision(rt, vector_in(n), nth(n, 3) == 1, nth(n, 4) == 1)?,
        Leaf::Distance => distance(rt, word(nth(n, 1)), word(nth(n, 2)), word(nth(n, 3)))?,
        Leaf::Negation => negation(rt, vector_in(n))?,
        Leaf::Cell => cell(rt, part(desk, Role::Block))?,
        Leaf::Record => record(rt, part(desk, Role::Block))?,
    }
    print::end(rt)
}

fn vector_in(n: &[usize]) -> Mv {
    Mv {
        y: half(nth(n, 1)),
        x: half(nth(n, 2)),
    }
}

fn vector(rt: &impl Print, v: Mv) -> io::Result<()> {
    print::signed(rt, v.y)?;
    print::signed(rt, v.x)
}

fn reference(rt: &impl Print, r: Ref) -> io::Result<()> {
    print::signed(rt, r.0 as i16)
}

fn projection(rt: &impl Print, v: Mv, num: i16, den: u32) -> io::Result<()> {
    if v.within(4095) && magnitude(num) <= 31 && 0 < den && den < 32 {
        vector(rt, mv_projection(v, num, den))?;
    }
    Ok(())
}

fn precision(rt: &impl Print, v: Mv, integer: bool, hp: bool) -> io::Result<()> {
    if v.within(16384) {
        vector(rt, fix_mv_precision(v, integer, hp))?;
    }
    Ok(())
}

fn distance(rt: &impl Print, bits: u32, a: u32, b: u32) -> io::Result<()> {
    if bits <= 8 {
        let whole = 1u32 << bits;
        if a < whole && b < whole {
            print::signed(rt, get_poc_diff(bits, a, b))?;
        }
    }
    Ok(())
}

fn negation(rt: &impl Print, v: Mv) -> io::Result<()> {
    if v.within(32767) {
        vector(rt, v.negated())?;
    }
    Ok(())
}

// Whether the vector is INVALID comes last.
fn cell(rt: &impl Print, s: &[u8]) -> io::Result<()> {
    if s.len() < 5 {
        return Ok(());
    }
    let c = Cell::read(s, 0);
    vector(rt, c.mv)?;
    reference(rt, c.reference)?;
    print::number(rt, c.projected_absent() as u64)
}

fn size(rt: &impl Print, code: u8) -> io::Result<()> {
    if let Some(d) = dimensions(code) {
        print::number(rt, d.w.0 as u64)?;
        print::number(rt, d.h.0 as u64)?;
    }
    Ok(())
}

// Width and height of its size come last.
fn record(rt: &impl Print, s: &[u8]) -> io::Result<()> {
    if s.len() < 12 {
        return Ok(());
    }
    let b = Block::read(s, 0);
    let mv = b.mv;
    let refs = b.refs;
    vector(rt, mv.first)?;
    vector(rt, mv.second)?;
    reference(rt, refs.first)?;
    reference(rt, refs.second)?;
    print::number(rt, b.bs as u64)?;
    print::number(rt, b.mf as u64)?;
    size(rt, b.bs)
}
