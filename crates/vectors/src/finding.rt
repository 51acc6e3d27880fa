// The candidate search over the desk's bytes, and the same search over records.
use crate::calls::{show_answer, tell};
use crate::desk::{Desk, Role, copy_of, part};
use crate::records::compare;
use jaskkovir::searches::jaskkovir_find;
use std::io;

// More than eight candidates have, or the count and the context.
const SPACE: usize = 256;

fn answer(desk: &Desk, stack: &mut [u8], found: &mut [u8]) -> u8 {
    jaskkovir_find(
        part(desk, Role::Frame),
        part(desk, Role::Tile),
        part(desk, Role::Records),
        part(desk, Role::Proj),
        part(desk, Role::Ask),
        stack,
        found,
    )
}

pub(crate) fn find(rt: &impl Print, desk: &mut Desk, line: &[usize]) -> io::Result<()> {
    let mut for_stack = [0u8; SPACE];
    let mut for_found = [0u8; SPACE];
    let stack = copy_of(&mut for_stack, part(desk, Role::Stack));
    let found = copy_of(&mut for_found, part(desk, Role::Found));
    let number = answer(desk, stack, found);
    show_answer(rt, line, number)?;
    compare(rt, desk, number, stack, found)?;
    tell(rt, desk, Role::Stack, stack)?;
    tell(rt, desk, Role::Found, found)
}
