// Calls of the exported functions that write one part at most. What a call reads lies on the desk; what
// it writes is taken from there, told where it changed, and put back.
use crate::changes::Change;
use crate::commands::Call;
use crate::desk::{Desk, ROOM, Role, copy_of, part, put_back};
use crate::numbers::{byte, nth, word};
use jaskkovir::batches::jaskkovir_admit;
use jaskkovir::frames::{jaskkovir_check, jaskkovir_init_frame, jaskkovir_listed_sizes};
use jaskkovir::motions::{jaskkovir_load_tmvs, jaskkovir_save_tmvs};
use jaskkovir::tiles::{jaskkovir_splat_mv, jaskkovir_tile_sbrow_init};
use lines::print;
use std::io;

// The part that a call writes, if any.
fn written_by(function: Call) -> Option<Role> {
    match function {
        Call::InitFrame => Some(Role::Frame),
        Call::ListedSizes => Some(Role::Sizes),
        Call::TileSbrowInit => Some(Role::Tile),
        Call::SplatMv => Some(Role::Records),
        Call::SaveTmvs => Some(Role::Saved),
        Call::LoadTmvs => Some(Role::Proj),
        Call::Check | Call::Admit => None,
    }
}

fn init_frame(desk: &Desk, n: &[usize], frame: &mut [u8]) -> u8 {
    jaskkovir_init_frame(
        nth(n, 1),
        nth(n, 2),
        byte(nth(n, 3)),
        word(nth(n, 4)),
        word(nth(n, 5)),
        part(desk, Role::Hints),
        part(desk, Role::HintsByRef),
        nth(n, 6),
        nth(n, 7),
        nth(n, 8),
        byte(nth(n, 9)),
        part(desk, Role::Present),
        frame,
    )
}

fn tile_sbrow_init(desk: &Desk, n: &[usize], tile: &mut [u8]) -> u8 {
    jaskkovir_tile_sbrow_init(
        part(desk, Role::Frame),
        nth(n, 1),
        nth(n, 2),
        nth(n, 3),
        nth(n, 4),
        nth(n, 5),
        nth(n, 6),
        nth(n, 7),
        tile,
    )
}

fn splat_mv(desk: &Desk, n: &[usize], records: &mut [u8]) -> u8 {
    jaskkovir_splat_mv(
        part(desk, Role::Frame),
        part(desk, Role::Tile),
        part(desk, Role::Block),
        nth(n, 1),
        nth(n, 2),
        nth(n, 3),
        nth(n, 4),
        records,
    )
}

fn save_tmvs(desk: &Desk, n: &[usize], field: &mut [u8]) -> u8 {
    jaskkovir_save_tmvs(
        part(desk, Role::Frame),
        nth(n, 1),
        nth(n, 2),
        nth(n, 3),
        nth(n, 4),
        nth(n, 5),
        nth(n, 6),
        nth(n, 7),
        part(desk, Role::Records),
        field,
    )
}

fn load_tmvs(desk: &Desk, n: &[usize], proj: &mut [u8]) -> u8 {
    jaskkovir_load_tmvs(
        part(desk, Role::Frame),
        nth(n, 1),
        nth(n, 2),
        nth(n, 3),
        nth(n, 4),
        nth(n, 5),
        part(desk, Role::Present),
        part(desk, Role::Field0),
        part(desk, Role::Field1),
        part(desk, Role::Field2),
        part(desk, Role::Field3),
        part(desk, Role::Field4),
        part(desk, Role::Field5),
        part(desk, Role::Field6),
        proj,
    )
}

fn admit(desk: &Desk) -> u8 {
    jaskkovir_admit(
        part(desk, Role::Frame),
        part(desk, Role::Present),
        part(desk, Role::Jobs),
        part(desk, Role::Field0),
        part(desk, Role::Field1),
        part(desk, Role::Field2),
        part(desk, Role::Field3),
        part(desk, Role::Field4),
        part(desk, Role::Field5),
        part(desk, Role::Field6),
        part(desk, Role::Records),
        part(desk, Role::Proj),
        part(desk, Role::Saved),
    )
}

fn answer(desk: &Desk, function: Call, line: &[usize], to: &mut [u8]) -> u8 {
    match function {
        Call::InitFrame => init_frame(desk, line, to),
        Call::Check => jaskkovir_check(part(desk, Role::Frame)),
        Call::ListedSizes => jaskkovir_listed_sizes(part(desk, Role::Frame), to),
        Call::TileSbrowInit => tile_sbrow_init(desk, line, to),
        Call::SplatMv => splat_mv(desk, line, to),
        Call::SaveTmvs => save_tmvs(desk, line, to),
        Call::LoadTmvs => load_tmvs(desk, line, to),
        Call::Admit => admit(desk),
    }
}

// What a call answered, and its number before it.
pub(crate) fn show_answer(rt: &impl Print, line: &[usize], answer: u8) -> io::Result<()> {
    print::start(rt, byte(nth(line, 0)))?;
    print::number(rt, answer as u64)?;
    print::end(rt)
}

// What a call changed in a part.
pub(crate) fn show(rt: &impl Print, desk: &Desk, role: Role, after: &[u8]) -> io::Result<()> {
    let before = part(desk, role);
    Change {
        role,
        before,
        after,
    }
    .show(rt)
}

// The same, and it is put back.
pub(crate) fn tell(rt: &impl Print, desk: &mut Desk, role: Role, after: &[u8]) -> io::Result<()> {
    show(rt, desk, role, after)?;
    put_back(desk, role, after);
    Ok(())
}

// A call that writes one part at most.
pub(crate) fn call(
    rt: &impl Print,
    desk: &mut Desk,
    function: Call,
    line: &[usize],
) -> io::Result<()> {
    let mut space = [0u8; ROOM];
    let Some(role) = written_by(function) else {
        return show_answer(rt, line, answer(desk, function, line, &mut []));
    };
    let to = copy_of(&mut space, part(desk, role));
    show_answer(rt, line, answer(desk, function, line, to))?;
    tell(rt, desk, role, to)
}
