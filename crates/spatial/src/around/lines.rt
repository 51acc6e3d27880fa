// Which lines of neighbours there are above a block and to its left. `down` says that the left side is
// meant.
ghost use Rattle.std.specs.Prelude.{◌≡◌, ◌≤◌};
ghost use Rattle.spatial.specs.Code.Site.{Placed};
ghost use Rattle.spatial.specs.site.Site.{depth_of};
ghost use Rattle.spatial.specs.around.Lines.{row_of, odd_of, step_of, near_line, far_line, near_span, far_span};

use crate::neighbours::read::Line;
use crate::scan::Span;
use crate::site::block::Site;
use cells::pos::{Pos4, Pos8};

// The block's first row among the 32 that the table spans.
pub(crate) fn row_of(b: Site) -> Pos4
    ensures { result.0 ≡ row_of b }
{
    Pos4(b.y.0 % 32)
}

// The second place of the cell.
fn odd_of(v: Pos4) -> Pos4
    ensures { result.0 ≡ odd_of v.0 }
{
    v.halved().odd()
}

// Next to the block.
pub fn near_line(b: Site, down: bool) -> Line
    requires { Placed b × (1 ≤ depth_of down b) }
    ensures { result ≡ near_line down b }
{
    let row = row_of(b);
    if down {
        return Line {
            entry: row.0 + 5,
            col: Pos4(b.x.0 - 1),
            down,
        };
    }
    let col = b.x;
    Line {
        entry: row.0 + 4,
        col,
        down,
    }
}

// Line n, the second or the third, in the nth cell off: everything is in pairs there, and the odd
// ones are looked at.
pub(crate) fn far_line(b: Site, down: bool, n: usize) -> Line
    requires { Placed b × (2 ≤ n) × (n ≤ 3) × (n ≤ depth_of down b) }
    ensures { result ≡ far_line down b n }
{
    let row = row_of(b);
    let off = Pos8(n - 1).odd();
    if down {
        return Line {
            entry: odd_of(row).0 + 5,
            col: odd_of(Pos4(b.x.0 - off.0)),
            down,
        };
    }
    Line {
        entry: Pos4(row.0 + 6 - off.0).halved().doubled().0,
        col: odd_of(b.x),
        down,
    }
}

// Along a side of 64 samples or more each neighbour counts for 16 samples at least.
fn step_of(side: Pos4, least: Pos4) -> Pos4
    ensures { result.0 ≡ step_of side.0 least.0 }
{
    if side.0 < 16 { least } else { Pos4(4) }
}

pub(crate) fn near_span(b: Site, down: bool) -> Span
    requires { Placed b }
    ensures { result ≡ near_span down b }
{
    let side = b.side(down);
    Span {
        size: side,
        limit: b.limit(down),
        rows: b.depth(down),
        step: step_of(side, Pos4(1)),
    }
}

pub(crate) fn far_span(b: Site, down: bool, n: usize) -> Span
    requires { Placed b × (n ≤ depth_of down b) }
    ensures { result ≡ far_span down b n }
{
    let side = b.side(down);
    Span {
        size: side,
        limit: b.limit(down),
        rows: 1 + b.depth(down) - n,
        step: step_of(side, Pos4(2)),
    }
}
