// The context that a search's modes are read with.
ghost use Rattle.std.specs.Prelude.{◌≡◌, ◌≤◌, length};
ghost use Rattle.stack.specs.Code.Numbers.{view_at};
ghost use Rattle.search.specs.front.Context.{matches_of, ref_context, new_context, compound_context, context_of};

use stack::numbers::{Flag, flag_in};

// On how many sides neighbours matched.
pub fn matches(s: &[u64]) -> u8
    requires { length s.now ≡ 20 }
    ensures { (result ≡ matches_of (view_at s.now)) × (result ≤ 2) }
{
    u8::from(flag_in(s, Flag::Above)) + u8::from(flag_in(s, Flag::Left))
}

// nearest and total are sides that matched, among the near neighbours and among all.
fn ref_context(nearest: u8, total: u8) -> u8
    requires { total ≤ 2 }
    ensures { (result ≡ ref_context nearest total) × (result ≤ 5) }
{
    match nearest {
        0 => total,
        1 => 2 + total,
        _ => 5,
    }
}

// newmv: a near neighbour's mode has a new vector.
fn new_context(nearest: u8, total: u8, newmv: bool) -> u8
    ensures { (result ≡ new_context nearest total newmv) × (result ≤ 5) }
{
    match nearest {
        0 => total.min(1),
        1 => 3 - u8::from(newmv),
        _ => 5 - u8::from(newmv),
    }
}

fn compound_context(by_ref: u8, by_new: u8) -> u8
    requires { (by_ref ≤ 5) × (by_new ≤ 5) }
    ensures { result ≡ compound_context by_ref by_new }
{
    if by_ref < 2 {
        return by_new.min(1);
    }
    if by_ref < 4 {
        return 1 + by_new.min(3);
    }
    if by_new == 0 {
        return 4;
    }
    3 + by_new.min(4)
}

pub fn context_of(compound: bool, nearest: u8, total: u8, newmv: bool, zero: u8) -> u8
    requires { (nearest ≤ 2) × (total ≤ 2) × (zero ≤ 1) }
    ensures { result ≡ context_of compound nearest total newmv zero }
{
    let by_ref = ref_context(nearest, total);
    let by_new = new_context(nearest, total, newmv);
    if compound {
        return compound_context(by_ref, by_new);
    }
    16 * by_ref + 8 * zero + by_new
}
