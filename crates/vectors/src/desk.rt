// The desk: all parts that a call may be lent, in one array. Each role has a room of its own there; the
// first room has the parts' lengths, four bytes for each, which may be anything up to the room
// (rust/README.md has the roles).
ghost use Rattle.std.specs.Prelude.{◌≤◌};

use ground::read::size_at;
use ground::write::put_size;
use std::ops::Range;

const ROLES: usize = 24;

pub(crate) const ROOM: usize = 81920;

pub(crate) const DESK: usize = ROLES * ROOM;

pub(crate) type Desk = [u8; DESK];

// What a part is lent for, in the order of the rooms.
#[derive(Clone, Copy)]
pub(crate) enum Role {
    // Where the lengths stand. Its own length is 0.
    Lengths,
    Frame,
    Tile,
    Block,
    Hints,
    HintsByRef,
    Present,
    Ask,
    Stack,
    Found,
    Sizes,
    Steps,
    Jobs,
    Records,
    Proj,
    Saved,
    File,
    Field0,
    Field1,
    Field2,
    Field3,
    Field4,
    Field5,
    Field6,
}

// A number that no role has.
#[derive(Drop)]
pub(crate) struct NoRole;

impl TryFrom<usize> for Role {
    type Error = NoRole;

    fn try_from(number: usize) -> Result<Role, NoRole> {
        match number {
            0 => Ok(Role::Lengths),
            1 => Ok(Role::Frame),
            2 => Ok(Role::Tile),
            3 => Ok(Role::Block),
            4 => Ok(Role::Hints),
            5 => Ok(Role::HintsByRef),
            6 => Ok(Role::Present),
            7 => Ok(Role::Ask),
            8 => Ok(Role::Stack),
            9 => Ok(Role::Found),
            10 => Ok(Role::Sizes),
            11 => Ok(Role::Steps),
            12 => Ok(Role::Jobs),
            13 => Ok(Role::Records),
            14 => Ok(Role::Proj),
            15 => Ok(Role::Saved),
            16 => Ok(Role::File),
            17 => Ok(Role::Field0),
            18 => Ok(Role::Field1),
            19 => Ok(Role::Field2),
            20 => Ok(Role::Field3),
            21 => Ok(Role::Field4),
            22 => Ok(Role::Field5),
            23 => Ok(Role::Field6),
            _ => Err(NoRole),
        }
    }
}

pub(crate) fn number_of(role: Role) -> usize
    ensures { result ≤ 23 }
{
    role as usize
}

fn len_of(desk: &Desk, role: Role) -> usize {
    size_at(desk, 4 * number_of(role))
}

pub(crate) fn set_length(desk: &mut Desk, role: Role, len: usize) {
    put_size(desk, 4 * number_of(role), len);
}

// Where a part stands.
fn span_of(desk: &Desk, role: Role) -> Range<usize>
    ensures { (result.start ≤ result.end) × (result.end ≤ DESK) }
{
    let start = ROOM * number_of(role);
    let end = start + len_of(desk, role).min(ROOM);
    start..end
}

pub(crate) fn part(desk: &Desk, role: Role) -> &[u8] {
    let Range { start, end } = span_of(desk, role);
    &desk[start..end]
}

// The same, to be written to.
pub(crate) fn part_to_change(desk: &mut Desk, role: Role) -> &mut [u8] {
    let Range { start, end } = span_of(desk, role);
    &mut desk[start..end]
}

// The bytes copied to a space of their own, as far as that reaches.
pub(crate) fn copy_of<'a>(space: &'a mut [u8], from: &[u8]) -> &'a mut [u8] {
    let n = from.len().min(space.len());
    let to = &mut space[..n];
    to.copy_from_slice(&from[..n]);
    to
}

// The bytes laid over the part.
pub(crate) fn put_back(desk: &mut Desk, role: Role, from: &[u8]) {
    copy_of(part_to_change(desk, role), from);
}
