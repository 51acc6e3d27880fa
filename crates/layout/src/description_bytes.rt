// A frame's description in the 67 bytes that a capture file has for it, the low byte of a number
// first.
ghost use Rattle.std.specs.Prelude.{◌≡◌, ◌≤◌, length};
ghost use Rattle.layout.specs.DescriptionBytes.{description_at};

use crate::start::first_bytes;
use frame::hints::description::Description;
use ground::read::{one_at, two_at};

pub const DESCRIPTION: usize = 67;

// The description that the bytes hold, whatever they are: frame setup judges it.
pub fn description_at(s: &[u8]) -> Description
    requires { 67 ≤ length s.now }
    ensures { result ≡ description_at s.now }
{
    let hints = first_bytes::<7>(&s[7..]);
    let hints_by_ref = first_bytes::<49>(&s[14..]);
    Description {
        width: two_at(s, 0),
        height: two_at(s, 2),
        sb128: s[4],
        hint_bits: u32::from(s[5]),
        current_hint: u32::from(s[6]),
        hints,
        hints_by_ref,
        tile_rows: one_at(s, 63),
        tile_threads: one_at(s, 64),
        frame_threads: one_at(s, 65),
        temporal: s[66],
    }
}
