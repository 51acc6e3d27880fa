// Replays a list of calls of the exported functions: standard input says what is lent and what is
// called, and what is printed has to be the list's answers (rust/vectors writes both files,
// rust/README.md has their layout).
#![tactic(auto)]

mod batch;
mod calls;
mod changes;
mod commands;
mod desk;
mod finding;
mod input;
mod lay;
mod leaves;
mod line;
mod numbers;
mod records;
mod step;

use crate::desk::{DESK, Desk};
use crate::input::{numbers_in, whole_lines};
use crate::line::obey;
use lines::read::read_full;
use std::io;
use std::io::Read;

// The most numbers of a line.
const NUMBERS: usize = 300;

// The bytes of a piece of the text.
const TEXT: usize = 65536;

// More than any text has pieces, so that a loop over them always ends.
const MOST_PIECES: usize = 4294967295;

fn main(rt: HostRuntime) -> io::Result<()> {
    let mut desk = [0u8; DESK];
    replay(&rt, &mut rt.stdin(), &mut desk)
}

// The text comes a piece at a time, of which the whole lines are taken, and the rest is kept for the next.
fn replay(rt: &impl Print, input: &mut impl Read, desk: &mut Desk) -> io::Result<()> {
    let mut text = [0u8; TEXT];
    let mut kept: usize = 0;
    for _ in 0..MOST_PIECES {
        let len = kept + read_full(input, &mut text[kept..])?;
        if len == 0 {
            return Ok(());
        }
        let end = whole_lines(&text[..len]);
        obey_all(rt, desk, &text[..end])?;
        text.copy_within(end..len, 0);
        kept = len - end;
    }
    Ok(())
}

fn obey_all(rt: &impl Print, desk: &mut Desk, text: &[u8]) -> io::Result<()> {
    let mut room = [0usize; NUMBERS];
    for line in text.split_inclusive(|b| *b == b'\n') {
        obey(rt, desk, numbers_in(line, &mut room))?;
    }
    Ok(())
}
