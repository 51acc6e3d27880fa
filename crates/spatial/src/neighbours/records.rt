// What neighbours are read from.
ghost use Rattle.std.specs.Prelude.{◌*◌, ◌≤◌, length};

use crate::neighbours::read::{Line, NeighbourRead, judge};
use cells::block::Block;
use cells::pos::Pos4;
use layout::tile_bytes::entry_in;

// A tile's bytes, whose table says where the records of a row start, and the lent records, of which
// total are listed.
#[derive(Clone, Copy)]
pub struct Records<'a> {
    pub tile: &'a [u8],
    pub recs: &'a [u8],
    pub total: usize,
    pub ghost tiled: { 168 ≤ length tile.now },
    pub ghost listed: { 12 * total ≤ length recs.now },
}

// A record is read by its row's entry in the table and its column.
impl Records<'_> {
    ghost use Rattle.std.specs.Prelude.{◌≡◌, ◌+◌, ◌<◌, ◌^◌};
    ghost use Rattle.spatial.specs.neighbours.Neighbour.{record_at};
    ghost use Rattle.spatial.specs.Code.Neighbour.{read_from, line_from};

    // 4 past the listed records.
    fn record_at(self, o: usize, col: Pos4) -> NeighbourRead
        ensures { result ≡ record_at self.entry.recs.now self.entry.total o col.0 }
    {
        if self.total <= o || self.total - o <= col.0 {
            return NeighbourRead::Refused(4);
        }
        judge(Block::read(self.recs, o + col.0))
    }

    // 6 where the entry is absent.
    pub fn read_at(self, e: usize, col: Pos4) -> NeighbourRead
        ensures { result ≡ read_from self.entry e col.0 }
    {
        match entry_in(self.tile, e).at {
            None => NeighbourRead::Refused(6),
            Some(o) => self.record_at(o, col),
        }
    }

    // The neighbour i along the line.
    pub fn neighbour_at(self, l: Line, i: Pos4) -> NeighbourRead
        requires { (l.entry + i.0 < 2 ^ 64) × (l.col.0 + i.0 < 2 ^ 64) }
        ensures { result ≡ line_from self.entry l i.0 }
    {
        self.read_at(l.entry_at(i), l.col_at(i))
    }
}
