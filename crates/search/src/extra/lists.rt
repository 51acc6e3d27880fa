// A neighbour's lists, and what each gives to a single search.
ghost use Rattle.std.specs.Prelude.{◌≡◌, true, ◌+◌, ◌≤◌, ◌<◌};
ghost use Rattle.vector.specs.Vector.{Within};
ghost use Rattle.cells.specs.Block.{well_block};
ghost use Rattle.stack.specs.Code.Numbers.{view_at, count_at, Held};
ghost use Rattle.cells.specs.Cell.{is_ref};
ghost use Rattle.search.specs.extra.Lists.{bias_of, turned, list_of, extended_by};

use cells::block::{Block, MvPair};
use cells::cell::Ref;
use stack::add::add_new;
use vector::mv::Mv;

// One of a neighbour's two lists.
#[derive(Clone, Copy)]
pub struct Listed {
    pub reference: Ref,
    pub mv: Mv,
}

// On which side in time a reference lies.
fn bias_of(biases: &[u8; 7], r: Ref) -> u8
    requires { is_ref r ≡ true }
    ensures { result ≡ bias_of biases.now r }
{
    biases[r.place()]
}

// What a single search looks for: a reference. Biases say on which side in time each of the seven lies.
#[derive(Clone, Copy)]
pub struct Single<'a> {
    pub biases: &'a [u8; 7],
    pub reference: Ref,
    pub ghost asked: { is_ref reference ≡ true },
}

impl Single<'_> {
    // The list's vector for the reference: turned round where the two lie on different sides.
    pub(crate) fn turn(self, l: Listed) -> Mv
        requires { (is_ref l.reference ≡ true) × Within 16383 l.mv }
        ensures { result ≡ turned self.entry.biases.now self.entry.reference l }
    {
        if bias_of(self.biases, self.reference) == bias_of(self.biases, l.reference) {
            l.mv
        } else {
            l.mv.negated()
        }
    }

    fn extend_by(self, l: Listed, s: &mut [u64])
        requires { (is_ref l.reference ≡ true) × Within 16383 l.mv × Held s.old × (count_at s.old < 8) }
        ensures { Held s.new × (count_at s.new ≤ count_at s.old + 1)
            × (view_at s.new ≡ list_of self.entry.biases.now self.entry.reference l (view_at s.old)) }
    {
        let first = self.turn(l);
        let second = Mv::ZERO;
        add_new(s, MvPair { first, second });
    }

    // Both lists of a neighbour; a first one without a reference hides the second.
    pub(crate) fn extend(self, k: Block, s: &mut [u64])
        requires { (well_block k ≡ true) × Held s.old × (count_at s.old < 2) }
        ensures { Held s.new × (count_at s.new ≤ 3)
            × (view_at s.new ≡ extended_by self.entry.biases.now self.entry.reference k (view_at s.old)) }
    {
        let mv = k.mv;
        let refs = k.refs;
        if !refs.first.is_ref() {
            return;
        }
        let one = Listed {
            reference: refs.first,
            mv: mv.first,
        };
        self.extend_by(one, s);
        if !refs.second.is_ref() {
            return;
        }
        let two = Listed {
            reference: refs.second,
            mv: mv.second,
        };
        self.extend_by(two, s);
    }
}
