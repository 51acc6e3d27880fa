// The source cells of a load's row: which they are, and whether they are well formed.
ghost use Rattle.std.specs.Prelude.{◌≡◌, ◌+◌, ◌*◌, ◌≤◌, length};
ghost use Rattle.motion.specs.landing.Row.{first_source, end_source, cell_read, sources_read, source_at};

use crate::saving::area::Window;
use cells::cell::Cell;

// From 8 columns before the window..
pub(crate) fn source_start(w: Window) -> usize
    ensures { result ≡ first_source w }
{
    w.left.0.saturating_sub(8)
}

// ..to 8 after it, inside the frame.
#[tactic(auto, unfolding(crate::specs::landing::Row::end_source))]
pub(crate) fn source_end(w: Window) -> usize
    requires { w.right.0 ≤ 65536 }
    ensures { (result ≡ end_source w) × (result ≤ w.iw8.0) }
{
    (w.right.0 + 8).min(w.iw8.0)
}

#[tactic(auto, unfolding(crate::specs::landing::Row::cell_read, crate::specs::landing::Row::source_at))]
fn check_cell(src: &[u8], first: usize, x: usize) -> u8
    requires { 5 * (first + x) + 5 ≤ length src.now }
    ensures { result ≡ cell_read (source_at src.now first) x }
{
    let c = Cell::read(src, first + x);
    if c.well_saved() { 0 } else { 7 }
}

// first is the number of the row's first cell.
pub fn check_sources(src: &[u8], first: usize, w: Window) -> u8
    requires { (w.right.0 ≤ 65536) × (5 * (first + w.iw8.0) ≤ length src.now) }
    ensures { result ≡ sources_read (source_at src.now first) w }
{
    for x in source_start(w)..source_end(w) {
        let answer = check_cell(src, first, x);
        if answer != 0 {
            return answer;
        }
    }
    0
}
