// Places and lengths along one axis. Those in units of 4 samples and those in units of 8 are two
// types, so that neither is taken for the other; only the functions here cross over.
ghost use Rattle.std.specs.Prelude.{◌≡◌, ◌+◌, ◌*◌, ◌/◌, ◌^◌, ◌<◌};

// In units of 4 samples, as block records are.
#[derive(Clone, Copy, Debug, PartialEq, Eq, PartialOrd, Ord)]
pub struct Pos4(pub usize);

// In units of 8 samples, as motion cells are.
#[derive(Clone, Copy, Debug, PartialEq, Eq, PartialOrd, Ord)]
pub struct Pos8(pub usize);

impl Pos4 {
    // The cell that holds this place.
    pub fn halved(self) -> Pos8
        ensures { result.0 ≡ self.0 / 2 }
    {
        Pos8(self.0 / 2)
    }

    // A length in cells, where a part of a cell counts as one.
    pub fn halved_up(self) -> Pos8
        ensures { result.0 ≡ (self.0 + 1) / 2 }
    {
        Pos8(self.0.div_ceil(2))
    }
}

impl Pos8 {
    // The first of the two places of this cell.
    pub fn doubled(self) -> Pos4
        requires { self.0 < 2 ^ 63 }
        ensures { result.0 ≡ 2 * self.0 }
    {
        Pos4(2 * self.0)
    }

    // The second of them, where the record is that the cell is saved from.
    pub fn odd(self) -> Pos4
        requires { self.0 < 2 ^ 63 }
        ensures { result.0 ≡ 2 * self.0 + 1 }
    {
        Pos4(2 * self.0 + 1)
    }
}
