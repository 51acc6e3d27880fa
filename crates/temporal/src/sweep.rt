// The cells that a block's search looks at: those of the block itself, by row and column, then three
// outside it.
ghost use Rattle.std.specs.Prelude.{◌≡◌, true, ◌&&◌, ◌+◌, ◌*◌, ◌≤◌, ◌<◌, ◌^◌, length};
ghost use Rattle.frame.specs.extent.Sizes.{most_cells};
ghost use Rattle.stack.specs.Code.Numbers.{found_at, view_at, heft_at, Held};
ghost use Rattle.stack.specs.Code.Found.{outcome};
ghost use Rattle.spatial.specs.Code.Site.{Placed};
ghost use Rattle.temporal.specs.Temporal.{cell_read};
ghost use Rattle.temporal.specs.Sweep.{visit_of, where_of, in_row, in_grid, stride_along, cells_along, grid_of};
ghost use Rattle.temporal.specs.Sweep.{cell_of, end_of, there, leftward, has_corners, corners_of, temporal_of};
ghost use Rattle.temporal.specs.Code.Sweep.{Light, Near, Fielded};

use crate::aim::{Aim, CellRead, bits_of, cell_at};
use cells::pos::{Pos4, Pos8};
use spatial::site::block::Site;
use stack::add::add_bits;

// The projection as a block's search sees it: the number of the block's own first cell, the cells of
// a row, and how many are listed.
#[derive(Clone, Copy)]
pub struct Field {
    pub first: usize,
    pub stride: Pos8,
    pub total: usize,
}

// A block of 64 samples or more along a side has every other cell looked at.
fn stride_along(side: Pos4) -> Pos8
    ensures { (result.0 ≡ stride_along side.0) × (1 ≤ result.0) × (result.0 ≤ 2) }
{
    if side.0 < 16 { Pos8(1) } else { Pos8(2) }
}

// How many cells are looked at along a side.
fn cells_along(limit: Pos4, step: Pos8) -> usize
    requires { (limit.0 ≤ 16) × (1 ≤ step.0) × (step.0 ≤ 2) }
    ensures { (result ≡ cells_along limit.0 step.0) × (result ≤ 8) }
{
    limit.halved_up().0.div_ceil(step.0)
}

// The block's first cell along an axis, and the tile's end there in cells: neither the tile's nor
// that of the group of 8 cells is passed.
fn first_cell(b: Site, down: bool) -> Pos8
    ensures { result.0 ≡ cell_of down b }
{
    if down { b.y.halved() } else { b.x.halved() }
}

fn end_cell(b: Site, down: bool) -> Pos8
    requires { Placed b }
    ensures { result.0 ≡ end_of down b }
{
    let group = first_cell(b, down).0 / 8 * 8 + 8;
    let tile = if down { b.row.end } else { b.col.end };
    Pos8(tile.halved().0.min(group))
}

// Whether the cell that lies n from the block's first one is there.
fn is_there(b: Site, down: bool, n: Pos8) -> bool
    requires { Placed b × (n.0 ≤ 32) }
    ensures { result ≡ there down b n.0 }
{
    first_cell(b, down).0 + n.0 < end_cell(b, down).0
}

// Whether the cell to the left of the block is.
fn is_left(b: Site) -> bool
    ensures { result ≡ leftward b }
{
    let x = b.x.halved().0;
    b.col.start.halved().0 < x && x / 8 * 8 < x
}

// Blocks of 8 to 32 samples each way look at three cells more.
fn has_corners(b: Site) -> bool
    ensures { result ≡ has_corners b }
{
    2 <= b.w.0 && 2 <= b.h.0 && b.w.0 < 16 && b.h.0 < 16
}

// A projection that is swept, and where the vectors of its cells are aimed.
#[derive(Clone, Copy)]
struct Swept<'a> {
    proj: &'a [u8],
    field: Field,
    aim: Aim,
    ghost near: { Near (length proj.now) field.total aim },
    ghost fielded: { Fielded field },
}

impl Swept<'_> {
    // One cell: nothing where it is absent.
    fn visit(&self, i: usize, s: &mut [u64]) -> u8
        requires { Held s.old × Light 2 (heft_at s.old) }
        ensures held { Held s.new × (heft_at s.new ≤ heft_at s.old + 2) }
        ensures s_after { outcome result (found_at s.new)
            ≡ visit_of (cell_read self.now.proj.now self.now.field.total) self.now.aim i (view_at s.old) }
    {
        match cell_at(self.proj, self.field.total, i) {
            CellRead::Refused(n) => n,
            CellRead::Absent => 0,
            CellRead::Of(c) => {
                add_bits(s, bits_of(c, self.aim), 2);
                0
            }
        }
    }

    // n cells from number first on, step apart.
    fn row(&self, first: usize, step: Pos8, n: usize, s: &mut [u64]) -> u8
        requires { Held s.old × Light 16 (heft_at s.old) × (n ≤ 8) × (step.0 ≤ 2) × (first < 2 ^ 48) }
        ensures held { Held s.new × (heft_at s.new ≤ heft_at s.old + 2 * n) }
        ensures s_after { outcome result (found_at s.new)
            ≡ in_row (cell_read self.now.proj.now self.now.field.total) self.now.aim step.0 n first (view_at s.old) }
    {
        for k in 0..n {
            let r = self.visit(first + k * step.0, s);
            if r != 0 {
                return r;
            }
        }
        0
    }

    // m such rows, down apart. The loop is like the one of `row`: one function over a closure for both would
    // be longer than the two.
    fn grid(&self, step: Pos8, n: usize, down: usize, m: usize, s: &mut [u64]) -> u8
        requires { Held s.old × Light 128 (heft_at s.old) × (n ≤ 8) × (step.0 ≤ 2) × (m ≤ 8) × (down ≤ 2 * most_cells) }
        ensures held { Held s.new × (heft_at s.new ≤ heft_at s.old + 16 * m) }
        ensures s_after { outcome result (found_at s.new)
            ≡ in_grid (cell_read self.now.proj.now self.now.field.total) self.now.aim step.0 n down m self.now.field.first (view_at s.old) }
    {
        for k in 0..m {
            let r = self.row(self.field.first + k * down, step, n, s);
            if r != 0 {
                return r;
            }
        }
        0
    }

    // The block's own cells.
    fn block(&self, b: Site, s: &mut [u64]) -> u8
        requires { Held s.old × Light 128 (heft_at s.old) × Placed b }
        ensures held { Held s.new × (heft_at s.new ≤ heft_at s.old + 128) }
        ensures s_after { outcome result (found_at s.new)
            ≡ grid_of (cell_read self.now.proj.now self.now.field.total) self.now.aim self.now.field b (view_at s.old) }
    {
        let dx = stride_along(b.w);
        let dy = stride_along(b.h);
        let n = cells_along(b.limit(false), dx);
        let m = cells_along(b.limit(true), dy);
        self.grid(dx, n, dy.0 * self.field.stride.0, m, s)
    }

    // Only where all before were read, and the cell is one to be looked at.
    fn visit_where(&self, here: bool, i: usize, r: u8, s: &mut [u64]) -> u8
        requires { Held s.old × Light 2 (heft_at s.old) }
        ensures held { Held s.new × (heft_at s.new ≤ heft_at s.old + 2) }
        ensures s_after { outcome result (found_at s.new)
            ≡ where_of here (cell_read self.now.proj.now self.now.field.total) self.now.aim i (outcome r (found_at s.old)) }
    {
        if r == 0 && here { self.visit(i, s) } else { r }
    }

    // Below left, below right, and to the right of the block's last row.
    fn corners(&self, b: Site, r: u8, s: &mut [u64]) -> u8
        requires { Held s.old × Light 6 (heft_at s.old) × Placed b × (has_corners b ≡ true) }
        ensures held { Held s.new × (heft_at s.new ≤ heft_at s.old + 6) }
        ensures s_after { outcome result (found_at s.new)
            ≡ corners_of (cell_read self.now.proj.now self.now.field.total) self.now.aim self.now.field b (outcome r (found_at s.old)) }
    {
        let w8 = b.w.halved();
        let h8 = b.h.halved();
        let below = is_there(b, true, h8);
        let right = is_there(b, false, w8);
        let under = self.field.first + h8.0 * self.field.stride.0;
        let one = self.visit_where(below && is_left(b), under - 1, r, s);
        let two = self.visit_where(right && below, under + w8.0, one, s);
        let last = is_there(b, true, Pos8(h8.0 - 1));
        self.visit_where(right && last, under + w8.0 - self.field.stride.0, two, s)
    }
}

// All that the projection gives to a block's search.
pub fn sweep_all(proj: &[u8], f: Field, b: Site, a: Aim, s: &mut [u64]) -> u8
    requires { Near (length proj.now) f.total a × Held s.old × Light 134 (heft_at s.old) × Fielded f × Placed b }
    ensures held { Held s.new × (heft_at s.new ≤ heft_at s.old + 134) }
    ensures s_after { outcome result (found_at s.new) ≡ temporal_of (cell_read proj.now f.total) a f b (view_at s.old) }
{
    let swept = Swept {
        proj,
        field: f,
        aim: a,
    };
    let r = swept.block(b, s);
    if has_corners(b) {
        swept.corners(b, r, s)
    } else {
        r
    }
}
