// The motion cell, 5 bytes: of a saved field, or of a projected one. The two mark "no motion"
// differently, so each has its own tests, and neither mark is ever read as the other.
ghost use Rattle.std.specs.Prelude.{◌≡◌, true, ◌+◌, ◌-◌, ◌*◌, ◌≤◌, pos, nat_abs, length};
ghost use Rattle.ground.specs.Put.{put};
ghost use Rattle.ground.specs.Sign.{from_to};
ghost use Rattle.cells.specs.Cell.{is_ref, cell_at, cell_bytes, saved_absent, projected_absent, well_saved, well_projected};

use ground::twos::{byte_bits, signed_byte};
use vector::mv::Mv;

// A reference frame, 1..7, INTRA or NONE; in a projected cell a distance, 1..31. It stays a number:
// `read` gives back any byte that was lent, and tells nothing of it.
#[derive(Clone, Copy, Debug, PartialEq, Eq)]
pub struct Ref(pub i8);

impl Ref {
    pub const INTRA: Ref = Ref(0);

    pub const NONE: Ref = Ref(-1);

    pub fn from_to(self, lo: i8, hi: i8) -> bool
        ensures { result ≡ from_to lo hi self.0 }
    {
        lo <= self.0 && self.0 <= hi
    }

    // A reference frame, and neither INTRA nor NONE.
    pub fn is_ref(self) -> bool
        ensures { result ≡ is_ref self }
    {
        self.from_to(1, 7)
    }

    // Its place in a table of seven.
    pub fn place(self) -> usize
        requires { from_to (pos 1) (pos 7) self.0 ≡ true }
        ensures { (result ≡ nat_abs self.0 - 1) × (result ≤ 6) }
    {
        self.0 as usize - 1
    }
}

#[derive(Clone, Copy, Debug, PartialEq, Eq)]
pub struct Cell {
    pub mv: Mv,
    pub reference: Ref,
}

impl Cell {
    // The cell of number i in a buffer of cells.
    pub fn read(s: &[u8], i: usize) -> Cell
        requires { 5 * i + 5 ≤ length s.now }
        ensures { result ≡ cell_at s.now i }
    {
        let at = 5 * i;
        Cell {
            mv: Mv::read(s, at),
            reference: Ref(signed_byte(s[at + 4])),
        }
    }

    pub fn write(self, s: &mut [u8], i: usize)
        requires { 5 * i + 5 ≤ length s.old }
        ensures { s.new ≡ put s.old (5 * i) (cell_bytes self) }
    {
        let at = 5 * i;
        self.mv.write(s, at);
        s[at + 4] = byte_bits(self.reference.0);
    }

    // In a saved field reference 0 marks a cell with no motion, whatever its vector.
    pub fn saved_absent(self) -> bool
        ensures { result ≡ saved_absent self }
    {
        self.reference == Ref::INTRA
    }

    // In a projected field the vector INVALID does, whatever the reference.
    pub fn projected_absent(self) -> bool
        ensures { result ≡ projected_absent self }
    {
        self.mv.is_invalid()
    }

    pub fn well_saved(self) -> bool
        ensures { result ≡ well_saved self }
    {
        self.saved_absent() || (self.reference.from_to(1, 7) && self.mv.within(4095))
    }

    pub fn well_projected(self) -> bool
        ensures { result ≡ well_projected self }
    {
        self.projected_absent() || (self.mv.within(4095) && self.reference.from_to(1, 31))
    }
}
