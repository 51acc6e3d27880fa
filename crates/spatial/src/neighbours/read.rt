// A neighbour, and the line on which it lies. Rows and columns of neighbours are one thing, a line
// along which places are counted.
ghost use Rattle.std.specs.Prelude.{◌≡◌, ◌+◌, ◌<◌, ◌^◌};
ghost use Rattle.spatial.specs.neighbours.Neighbour.{judged, side_of, along_of, across_of, entry_of, col_of};

use cells::block::Block;
use cells::pos::Pos4;
use cells::size::dimensions;

// A record that was read and is well formed. It has no invariant that says so: `judged` makes it under a
// test, where a definition has no proof at hand.
#[derive(Clone, Copy)]
pub struct Neighbour {
    pub block: Block,
}

#[derive(Clone, Copy)]
pub enum NeighbourRead {
    Of(Neighbour),
    Refused(u8),
}

// From a column of an entry's row on, to the right, or down through the entries that follow.
#[derive(Clone, Copy)]
pub struct Line {
    pub entry: usize,
    pub col: Pos4,
    pub down: bool,
}

// A size code's side along a line.
fn side(code: u8, down: bool) -> Pos4
    ensures { result.0 ≡ side_of down code }
{
    match dimensions(code) {
        None => Pos4(0),
        Some(d) => {
            if down {
                return d.h;
            }
            d.w
        }
    }
}

impl Neighbour {
    // Its size along a line, and across. It is asked where it is needed: a reader that handed it over
    // would be too large to become part of its callers.
    pub fn along(self, down: bool) -> Pos4
        ensures { result.0 ≡ along_of down self }
    {
        side(self.block.bs, down)
    }

    pub fn across(self, down: bool) -> Pos4
        ensures { result.0 ≡ across_of down self }
    {
        side(self.block.bs, !down)
    }
}

impl Line {
    pub(crate) fn entry_at(self, i: Pos4) -> usize
        requires { self.entry + i.0 < 2 ^ 64 }
        ensures { result ≡ entry_of self i.0 }
    {
        if self.down {
            return self.entry + i.0;
        }
        self.entry
    }

    pub(crate) fn col_at(self, i: Pos4) -> Pos4
        requires { self.col.0 + i.0 < 2 ^ 64 }
        ensures { result.0 ≡ col_of self i.0 }
    {
        if self.down {
            return self.col;
        }
        Pos4(self.col.0 + i.0)
    }
}

// 8 where it isn't well formed.
pub(crate) fn judge(k: Block) -> NeighbourRead
    ensures { result ≡ judged k }
{
    if k.well_formed() {
        return NeighbourRead::Of(Neighbour { block: k });
    }
    NeighbourRead::Refused(8)
}
