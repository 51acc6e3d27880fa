// A block in its tile. What is asked along its upper side and down its left side is one thing along
// two axes: `down` says that the left side is meant.
ghost use Rattle.std.specs.Prelude.{◌≡◌};
ghost use Rattle.spatial.specs.site.Site.{side_of, rest_of, limit_of, behind_of, deepest, depth_of};
ghost use Rattle.spatial.specs.Code.Site.{Placed};

use cells::pos::Pos4;
use rows::setup::TileRange;

// Its first row and column, its width and height, and the tile's columns and rows.
#[derive(Clone, Copy)]
pub struct Site {
    pub y: Pos4,
    pub x: Pos4,
    pub w: Pos4,
    pub h: Pos4,
    pub col: TileRange,
    pub row: TileRange,
}

impl Site {
    // The block's side.
    pub fn side(self, down: bool) -> Pos4
        ensures { result.0 ≡ side_of down self }
    {
        if down {
            return self.h;
        }
        self.w
    }

    // From the block's start to the tile's end.
    fn rest(self, down: bool) -> Pos4
        requires { Placed self }
        ensures { result.0 ≡ rest_of down self }
    {
        if down {
            return Pos4(self.row.end.0 - self.y.0);
        }
        Pos4(self.col.end.0 - self.x.0)
    }

    // How far along the side a search looks.
    pub fn limit(self, down: bool) -> Pos4
        requires { Placed self }
        ensures { result.0 ≡ limit_of down self }
    {
        Pos4(self.side(down).0.min(16).min(self.rest(down).0))
    }

    // From the tile's start to the side.
    fn behind(self, down: bool) -> Pos4
        requires { Placed self }
        ensures { result.0 ≡ behind_of down self }
    {
        if down {
            return Pos4(self.x.0 - self.col.start.0);
        }
        Pos4(self.y.0 - self.row.start.0)
    }

    // How many lines of neighbours there are on the side, the near one and two farther off, each in
    // a cell of its own; 0 at the tile's edge.
    pub fn depth(self, down: bool) -> usize
        requires { Placed self }
        ensures { result ≡ depth_of down self }
    {
        let lines = self.behind(down).halved_up().0;
        lines.min(most_lines(self.side(!down)))
    }
}

// A block of one unit across the lines has two of them.
fn most_lines(across: Pos4) -> usize
    ensures { result ≡ deepest across.0 }
{
    if across.0 == 1 { 2 } else { 3 }
}
