// What a matching neighbour does to what a search has found.
ghost use Rattle.std.specs.Prelude.{◌≡◌, ◌+◌, ◌≤◌, ◌<◌, ◌^◌, length};
ghost use Rattle.stack.specs.Code.Numbers.{found_at, view_at, heft_at, Held};
ghost use Rattle.spatial.specs.Take.{spatial};
ghost use Rattle.spatial.specs.Code.Take.{mode_flag, side_flag};

use crate::neighbours::want::{Want, offered};
use cells::block::Block;
use stack::add::add;
use stack::numbers::{Flag, put_flag};

fn note_mode(s: &mut [u64], mf: u8)
    requires { length s.old ≡ 20 }
    ensures { found_at s.new ≡ mode_flag mf (found_at s.old) }
{
    if 2 <= mf {
        put_flag(s, Flag::NewMv);
    }
}

// Above, or to the left where the line went down.
fn note_side(s: &mut [u64], down: bool)
    requires { length s.old ≡ 20 }
    ensures { found_at s.new ≡ side_flag down (found_at s.old) }
{
    put_flag(s, if down { Flag::Left } else { Flag::Above });
}

pub fn add_spatial(s: &mut [u64], w: u64, k: Block, q: Want, down: bool)
    requires { Held s.old × (heft_at s.old + w < 2 ^ 32) }
    ensures { Held s.new × (view_at s.new ≡ spatial down w k q (view_at s.old))
        × (heft_at s.new ≤ heft_at s.old + w) }
{
    if let Some(p) = offered(k, q) {
        add(s, p, w);
        note_mode(s, k.mf);
        note_side(s, down);
    }
}
