// The search over eight records of its own, for whoever has no slice of them to lend.
ghost use Rattle.std.specs.Prelude.{◌≡◌};
ghost use Rattle.search.specs.candidates.Plan.{stored};

use crate::candidates::find::find;
use crate::front::ask::Ask;
use crate::source::Source;
use stack::candidate::Candidate;

// The records afterwards: the answer is the plan's, for whoever asks it.
pub fn find_owned(mut stack: [Candidate; 8], from: Source<'_>, a: Ask) -> [Candidate; 8]
    ensures { result ≡ stored stack from.entry.frame.now from.entry.tile.now from.entry.recs.now from.entry.proj.now a }
{
    find(&mut stack, from, a);
    stack
}
