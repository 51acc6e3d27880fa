// What a load is lent: the seven fields by number, and of those the three at most that it uses.
ghost use Rattle.std.specs.Prelude.{◌≡◌, not, ◌||◌, [], ℕ, ◌≤◌, ◌<◌, eqb, ltb, get_or};
ghost use Rattle.ground.specs.Below.{all_below};
ghost use Rattle.motion.specs.loading.Fields.{lent, three, well_lent, long_enough, is_lent};
ghost use Rattle.motion.specs.loading.Used.{use_at};

use crate::loading::used::Uses;
use frame::hints::description::all_under;

// How each of the seven fields is lent: 0 where it isn't, else 1. Stays numbers: C hands them in, and
// one past 1 is refused.
#[derive(Clone, Copy)]
pub struct Lent {
    pub form: [u8; 7],
}

impl Lent {
    #[tactic(auto, unfolding(crate::specs::loading::Fields::well_lent))]
    pub fn well_formed(self) -> bool
        ensures { result ≡ well_lent self }
    {
        let form = self.form;
        all_under(&form, 2)
    }
}

// The seven lent fields, by number.
#[derive(Clone, Copy)]
pub struct LentFields<'a> {
    pub slices: [&'a [u8]; 7],
}

// The fields that a load uses, by the number of the use.
#[derive(Clone, Copy)]
pub struct UsedFields<'a> {
    pub slices: [&'a [u8]; 3],
}

impl<'a> LentFields<'a> {
    ghost use Rattle.motion.specs.loading.Fields.{all_lent, all_used, chosen};

    // Field k; past the last an empty one.
    fn field(self, k: usize) -> &'a [u8]
        ensures { result.now ≡ get_or (all_lent self.entry) k [] }
    {
        self.slices.get(k).copied().unwrap_or(&[])
    }

    // The fields of the uses, chosen from the seven.
    #[tactic(auto, unfolding(crate::specs::loading::Fields::chosen))]
    pub fn used(self, us: Uses) -> UsedFields<'a>
        ensures { all_used result ≡ chosen us (all_lent self.entry) }
    {
        let at = us.at;
        UsedFields {
            slices: [
                self.field(at[0].field),
                self.field(at[1].field),
                self.field(at[2].field),
            ],
        }
    }
}

impl<'a> UsedFields<'a> {
    ghost use Rattle.motion.specs.loading.Fields.{all_used, lengths_of};

    // That of use i.
    pub(crate) fn field(self, i: usize) -> &'a [u8]
        requires { i < 3 }
        ensures { result.now ≡ get_or (all_used self.entry) i [] }
    {
        self.slices[i]
    }

    pub fn lengths(self) -> [usize; 3]
        ensures { result ≡ lengths_of (all_used self.entry) }
    {
        self.slices.map(|s| s.len())
    }
}

fn is_long(need: usize, form: u8, length: usize) -> bool
    ensures { result ≡ (eqb form 0 || not (ltb length need)) }
{
    form == 0 || need <= length
}

// Each used reference's field, where it is lent, has the needed bytes; lengths are the used fields'.
pub(crate) fn are_long(need: usize, us: Uses, lent: Lent, lengths: [usize; 3]) -> bool
    requires { (us.n ≤ 3) × ((i : ℕ) → i < us.n → (use_at us i).field < 7) }
    ensures { result ≡ all_below us.n (long_enough need us lent lengths) }
{
    let at = us.at;
    let form = lent.form;
    for i in 0..us.n {
        let u = at[i];
        let k = u.field;
        if !is_long(need, form[k], lengths[i]) {
            return false;
        }
    }
    true
}

pub(crate) fn are_lent(us: Uses, lent: Lent) -> bool
    requires { (us.n ≤ 3) × ((i : ℕ) → i < us.n → (use_at us i).field < 7) }
    ensures { result ≡ all_below us.n (is_lent us lent) }
{
    let at = us.at;
    let form = lent.form;
    for i in 0..us.n {
        let u = at[i];
        let k = u.field;
        if form[k] == 0 {
            return false;
        }
    }
    true
}
