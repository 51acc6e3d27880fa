// The calls that write three parts: a capture played, and steps of a batch.
use crate::calls::{show, show_answer, tell};
use crate::desk::{Desk, ROOM, Role, copy_of, part};
use crate::numbers::{byte, nth};
use crate::step::step;
use jaskkovir::captures::jaskkovir_play;
use lines::print;
use std::io;

// Where a line's steps start.
const FIRST_STEP: usize = 2;

pub(crate) fn play_capture(rt: &impl Print, desk: &mut Desk, line: &[usize]) -> io::Result<()> {
    let mut for_steps = [0u8; ROOM];
    let mut for_proj = [0u8; ROOM];
    let mut for_saved = [0u8; ROOM];
    let steps = copy_of(&mut for_steps, part(desk, Role::Steps));
    let proj = copy_of(&mut for_proj, part(desk, Role::Proj));
    let saved = copy_of(&mut for_saved, part(desk, Role::Saved));
    let number = jaskkovir_play(part(desk, Role::File), proj, saved, steps);
    show_answer(rt, line, number)?;
    tell(rt, desk, Role::Steps, steps)?;
    tell(rt, desk, Role::Proj, proj)?;
    tell(rt, desk, Role::Saved, saved)
}

// The steps that the line names, behind its first two numbers, and what each answers. The second number
// says whether changes are told. The desk stays as it is.
pub(crate) fn take_steps(rt: &impl Print, desk: &Desk, line: &[usize]) -> io::Result<()> {
    let mut for_jobs = [0u8; ROOM];
    let mut for_proj = [0u8; ROOM];
    let mut for_saved = [0u8; ROOM];
    let jobs = copy_of(&mut for_jobs, part(desk, Role::Jobs));
    let proj = copy_of(&mut for_proj, part(desk, Role::Proj));
    let saved = copy_of(&mut for_saved, part(desk, Role::Saved));
    print::start(rt, byte(nth(line, 0)))?;
    for k in line.iter().skip(FIRST_STEP) {
        let answer = step(desk, *k, jobs, proj, saved);
        print::number(rt, answer as u64)?;
    }
    print::end(rt)?;
    if nth(line, 1) == 1 {
        show(rt, desk, Role::Jobs, jobs)?;
        show(rt, desk, Role::Proj, proj)?;
        show(rt, desk, Role::Saved, saved)?;
    }
    Ok(())
}
