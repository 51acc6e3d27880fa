// The candidate search over lent records, the Rust's `rav1d_refmvs_find`. It is document 01's form: "a
// thin function over &mut [Candidate] stores count, weights and used vectors once, from a covered by-value
// search result". `lent_bytes` has the form that is exported; one law says that both give one answer
// (`one_answer`, in the crate `answers`).
ghost use Rattle.std.specs.Prelude.{◌≡◌, length};
ghost use Rattle.search.specs.candidates.Plan.{plan_of, stored};

use crate::candidates::plan::{SearchAnswer, planned, slot};
use crate::front::ask::Ask;
use crate::source::Source;
use stack::candidate::Candidate;

// The answer is a refusal, and then nothing is stored, or count and context; weights and used vectors
// are stored once, at the end.
pub fn find(stack: &mut [Candidate], from: Source<'_>, a: Ask) -> SearchAnswer
    ensures { (result ≡ (plan_of (length stack.old) from.entry.frame.now from.entry.tile.now from.entry.recs.now from.entry.proj.now a).answer)
        × (stack.new ≡ stored stack.old from.entry.frame.now from.entry.tile.now from.entry.recs.now from.entry.proj.now a) }
{
    let p = planned(stack.len(), from, a);
    for i in 0..p.n {
        stack[i] = slot(stack[i], p.found, i);
    }
    p.answer
}
