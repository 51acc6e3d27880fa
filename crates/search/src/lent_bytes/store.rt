// Candidates in lent bytes, 12 for each: first vector, second vector, weight. What a search doesn't fix
// stays as it is lent.
ghost use Rattle.std.specs.Prelude.{◌≡◌, ◌+◌, ◌*◌, ◌≤◌, length};
ghost use Rattle.ground.specs.Script.{run};
ghost use Rattle.stack.specs.Code.Found.{live};
ghost use Rattle.stack.specs.Code.Numbers.{found_at, Held};
ghost use Rattle.search.specs.lent_bytes.Store.{second_patch, candidate_patches, candidates_script, fills_script};

use ground::write::put_u32;
use stack::candidate::Candidate;
use stack::numbers::{candidate_in, count_in};
use vector::mv::Mv;

// The second vector counts in a compound search alone.
fn put_second(stack: &mut [u8], i: usize, v: Mv, compound: bool)
    requires { 12 * i + 12 ≤ length stack.old }
    ensures { stack.new ≡ run (second_patch compound i v) stack.old }
{
    if compound {
        v.write(stack, 12 * i + 4);
    }
}

fn put_candidate(stack: &mut [u8], i: usize, c: Candidate, compound: bool)
    requires { 12 * i + 12 ≤ length stack.old }
    ensures { stack.new ≡ run (candidate_patches compound i c) stack.old }
{
    let mv = c.mv;
    mv.first.write(stack, 12 * i);
    put_second(stack, i, mv.second, compound);
    put_u32(stack, 12 * i + 8, c.weight);
}

pub(crate) fn put_candidates(stack: &mut [u8], s: &[u64], compound: bool)
    requires { (96 ≤ length stack.old) × Held s.now }
    ensures { stack.new ≡ run (candidates_script compound (live (found_at s.now))) stack.old }
{
    for i in 0..count_in(s) {
        put_candidate(stack, i, candidate_in(s, i), compound);
    }
}

// The slots below two that no candidate of a single search takes.
pub(crate) fn put_fills(stack: &mut [u8], count: usize, fill: Mv)
    requires { 96 ≤ length stack.old }
    ensures { stack.new ≡ run (fills_script fill count) stack.old }
{
    for i in count..2 {
        fill.write(stack, 12 * i);
    }
}
