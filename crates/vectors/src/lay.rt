// The bytes of parts, laid out on the desk.
ghost use Rattle.std.specs.Prelude.{◌<◌, length};

use crate::desk::{Desk, Role, part_to_change};
use crate::numbers::{byte, nth};

// Where the bytes of a line start, behind the command, the role, the place and the count.
const FIRST_BYTE: usize = 4;

// The bytes before a call of a part that it writes. All are above the size codes, and none is 0: so
// neither a record that is in order nor the vector INVALID is among them.
pub(crate) fn lend(desk: &mut Desk, role: Role) {
    for (i, b) in part_to_change(desk, role).iter_mut().enumerate() {
        *b = 128 + (i % 113) as u8;
    }
}

// The unit's bytes again and again, so many bytes from the start on.
fn fill(bytes: &mut [u8], most: usize, unit: &[usize])
    requires { 0 < length unit.now }
{
    for (i, b) in bytes.iter_mut().take(most).enumerate() {
        *b = byte(unit[i % unit.len()]);
    }
}

// The bytes of a line from a place of the part on, as far as it reaches.
pub(crate) fn lay(desk: &mut Desk, role: Role, line: &[usize]) {
    let bytes = part_to_change(desk, role);
    let place = nth(line, 2);
    if FIRST_BYTE < line.len() && place < bytes.len() {
        fill(&mut bytes[place..], nth(line, 3), &line[FIRST_BYTE..]);
    }
}
