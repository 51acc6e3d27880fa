// Which references are projected, at most three: the source's counting.
ghost use Rattle.std.specs.Prelude.{◌≡◌, true, ◌&&◌, ◌<◌, ltb};
ghost use Rattle.frame.specs.hints.Description.{hinted};
ghost use Rattle.frame.specs.hints.Selection.{lent, later, searched, last_wanted, total_of, first, turns, counted, grown_of, as_selection, selected};

use crate::hints::description::{Description, held, hint};
use crate::hints::distances::{ahead, from_current};

// References stay numbers: a record that C hands back holds any byte, and `selectable` judges it.
pub(crate) const LAST: u8 = 0;

pub const LAST2: u8 = 1;

pub(crate) const GOLDEN: u8 = 3;

pub const BWDREF: u8 = 4;

pub(crate) const ALTREF2: u8 = 5;

pub const ALTREF: u8 = 6;

// The first n of refs are selected, the others are 0. A length beside its places: there is no heap,
// and `as_selection` and `grown_of` speak of both.
#[derive(Clone, Copy)]
pub struct Selection {
    pub n: usize,
    pub refs: [u8; 3],
}

impl Selection {
    // With one more reference, if it is taken.
    fn grown(self, take: bool, reference: u8) -> Selection
        requires { take ≡ true → self.n < 3 }
        ensures { result ≡ grown_of take reference self }
    {
        if take {
            let n = self.n;
            let mut refs = self.refs;
            refs[n] = reference;
            return Selection { n: n + 1, refs };
        }
        self
    }

    fn has_room(self, total: usize, wanted: bool) -> bool
        ensures { result ≡ (ltb self.n total && wanted) }
    {
        self.n < total && wanted
    }
}

fn is_lent(present: [u8; 7], r: u8) -> bool
    requires { r < 7 }
    ensures { result ≡ lent present r }
{
    present[usize::from(r)] == 1
}

// A reference whose field is lent and that comes after the current frame.
fn lent_and_later(d: Description, present: [u8; 7], r: u8) -> bool
    requires { (hinted d ≡ true) × (r < 7) }
    ensures { result ≡ (lent present r && later d r) }
{
    is_lent(present, r) && ahead(from_current(d, hint(d, usize::from(r))))
}

// LAST, unless its own frame's ALTREF is the current GOLDEN.
fn last_wanted(d: Description, present: [u8; 7]) -> bool
    ensures { result ≡ last_wanted d present }
{
    is_lent(present, LAST)
        && held(d, usize::from(LAST), usize::from(ALTREF)) != hint(d, usize::from(GOLDEN))
}

fn total_of(last: bool) -> usize
    ensures { result ≡ total_of last }
{
    if last { 3 } else { 2 }
}

fn is_searched(d: Description) -> bool
    ensures { result ≡ searched d }
{
    d.temporal == 1 && 0 < d.hint_bits
}

fn by_count(d: Description, present: [u8; 7]) -> Selection
    requires { hinted d ≡ true }
    ensures { result ≡ as_selection (counted (total_of (last_wanted d present)) (first (last_wanted d present)) (turns d present)) }
{
    let last = last_wanted(d, present);
    let total = total_of(last);
    let none = Selection { n: 0, refs: [0; 3] };
    let s = none.grown(last, LAST);
    let s = s.grown(lent_and_later(d, present, BWDREF), BWDREF);
    let s = s.grown(lent_and_later(d, present, ALTREF2), ALTREF2);
    let room = s.has_room(total, lent_and_later(d, present, ALTREF));
    let s = s.grown(room, ALTREF);
    let room = s.has_room(total, is_lent(present, LAST2));
    s.grown(room, LAST2)
}

pub fn select(d: Description, present: [u8; 7]) -> Selection
    requires { hinted d ≡ true }
    ensures { result ≡ as_selection (selected d present) }
{
    if is_searched(d) {
        return by_count(d, present);
    }
    Selection { n: 0, refs: [0; 3] }
}
