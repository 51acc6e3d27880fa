// A search whose answer is laid into lent bytes.
ghost use Rattle.std.specs.Prelude.{◌≡◌, ◌≤◌, length};
ghost use Rattle.ground.specs.Script.{run};
ghost use Rattle.stack.specs.Code.Numbers.{found_at, Held};
ghost use Rattle.search.specs.Code.Find.{finding};
ghost use Rattle.search.specs.lent_bytes.Question.{ask_at};
ghost use Rattle.search.specs.lent_bytes.Whole.{is_compound, answer_in, stack_script, found_script, searched_in};

use crate::find::{Findings, find};
use crate::lent_bytes::question::ask_at;
use crate::lent_bytes::store::{put_candidates, put_fills};
use crate::source::Source;
use stack::numbers::{NUMBERS, count_in};

// Once, at the end.
fn put_stack(stack: &mut [u8], r: Findings, s: &[u64], compound: bool)
    requires { (96 ≤ length stack.old) × Held s.now × (r.answer ≡ 0) }
    ensures { stack.new ≡ run (stack_script compound (finding r (found_at s.now))) stack.old }
{
    put_candidates(stack, s, compound);
    if !compound {
        put_fills(stack, count_in(s), r.fill);
    }
}

// Count and context.
fn put_found(out: &mut [u8], r: Findings, s: &[u64])
    requires { (2 ≤ length out.old) × Held s.now × (r.answer ≡ 0) }
    ensures { out.new ≡ run (found_script (finding r (found_at s.now))) out.old }
{
    out[0] = count_in(s) as u8;
    out[1] = r.context;
}

// The answer is 0, and the stack and the two numbers of out are laid, or a refusal, and then nothing
// is written.
pub fn find_into(
    frame: &[u8],
    tile: &[u8],
    recs: &[u8],
    proj: &[u8],
    ask: &[u8],
    stack: &mut [u8],
    out: &mut [u8],
) -> u8
    requires { (109 ≤ length frame.now) × (168 ≤ length tile.now) × (24 ≤ length ask.now) × (96 ≤ length stack.old) × (2 ≤ length out.old) }
    ensures value { result ≡ answer_in (searched_in frame.now tile.now recs.now proj.now ask.now) }
    ensures stack_after { stack.new
        ≡ run (stack_script (is_compound (ask_at ask.now))
        (searched_in frame.now tile.now recs.now proj.now ask.now))
        stack.old }
    ensures out_after { out.new
        ≡ run (found_script
        (searched_in frame.now tile.now recs.now proj.now ask.now))
        out.old }
{
    let a = ask_at(ask);
    let refs = a.refs;
    let mut s = [0u64; NUMBERS];
    let from = Source {
        frame,
        tile,
        recs,
        proj,
    };
    let r = find(from, a, &mut s);
    if r.answer != 0 {
        return r.answer;
    }
    put_stack(stack, r, &s, refs.second.is_ref());
    put_found(out, r, &s);
    0
}
