// Plays a capture from standard input, and prints what its jobs left (docs/REPLAY.md).
#![tactic(auto)]

mod cells_of;
mod show;

use crate::show::show;
use lines::read::read_full;
use std::io;

// One more than a capture may have, so that a longer one is told from the longest.
const SPACE: usize = 65537;

fn main(rt: HostRuntime) -> io::Result<()> {
    let mut space = [0u8; SPACE];
    let n = read_full(&mut rt.stdin(), &mut space)?;
    show(&rt, &space[..n])
}
