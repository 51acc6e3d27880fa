// The block record, 12 bytes: what a decoded block leaves for its neighbours and for the saved
// field.
ghost use Rattle.std.specs.Prelude.{◌≡◌, ◌+◌, ◌*◌, ◌≤◌, length};
ghost use Rattle.ground.specs.Put.{put};
ghost use Rattle.cells.specs.Block.{vectors_at, refs_in, block_at, tail_bytes, block_bytes, bound_to, well_block};

use crate::cell::Ref;
use ground::read::word_at;
use ground::twos::{byte_bits, signed_byte};
use vector::mv::Mv;

// One for each of a block's two references.
#[derive(Clone, Copy, Debug, PartialEq, Eq)]
pub struct Pair<T> {
    pub first: T,
    pub second: T,
}

pub type MvPair = Pair<Mv>;

pub type RefPair = Pair<Ref>;

// bs and mf stay numbers, since a record is read from bytes before it is known to be well formed.
// bs is the size code. mf's bit 0 says that the block has a global mode and is at least 8x8, bit 1
// that its mode has a new vector.
#[derive(Clone, Copy, Debug, PartialEq, Eq)]
pub struct Block {
    pub mv: MvPair,
    pub refs: RefPair,
    pub bs: u8,
    pub mf: u8,
}

// A vector is bound to ±16,383 where its reference is one of 1..7.
fn bound_to(v: Mv, r: Ref) -> bool
    ensures { result ≡ bound_to v r }
{
    !r.is_ref() || v.within(16383)
}

fn read_vectors(s: &[u8], at: usize) -> MvPair
    requires { at + 8 ≤ length s.now }
    ensures { result ≡ vectors_at s.now at }
{
    MvPair {
        first: Mv::read(s, at),
        second: Mv::read(s, at + 4),
    }
}

// The references in the two low bytes of a number.
fn refs_of(n: u32) -> RefPair
    ensures { result ≡ refs_in n }
{
    let [first, second, _, _] = n.to_le_bytes();
    RefPair {
        first: Ref(signed_byte(first)),
        second: Ref(signed_byte(second)),
    }
}

impl Block {
    // The record of number i in a buffer of records. What stands behind the vectors is read as one
    // number, so that it is laid as one where the record is copied.
    pub fn read(s: &[u8], i: usize) -> Block
        requires { 12 * i + 12 ≤ length s.now }
        ensures { result ≡ block_at s.now i }
    {
        let at = 12 * i;
        let mv = read_vectors(s, at);
        let tail = word_at(s, at + 8);
        let refs = refs_of(tail);
        let [_, _, bs, mf] = tail.to_le_bytes();
        Block { mv, refs, bs, mf }
    }

    pub fn write(self, s: &mut [u8], i: usize)
        requires { 12 * i + 12 ≤ length s.old }
        ensures { s.new ≡ put s.old (12 * i) (block_bytes self) }
    {
        let at = 12 * i;
        self.mv.first.write(s, at);
        self.mv.second.write(s, at + 4);
        write_tail(s, at + 8, self.refs, self.bs, self.mf);
    }

    pub fn well_formed(self) -> bool
        ensures { result ≡ well_block self }
    {
        if 21 < self.bs || 3 < self.mf {
            return false;
        }
        let mv = self.mv;
        let refs = self.refs;
        if !refs.first.from_to(0, 7) || !refs.second.from_to(-1, 7) {
            return false;
        }
        bound_to(mv.first, refs.first) && bound_to(mv.second, refs.second)
    }
}

// The four bytes behind the vectors.
fn write_tail(s: &mut [u8], at: usize, refs: RefPair, bs: u8, mf: u8)
    requires { at + 4 ≤ length s.old }
    ensures { s.new ≡ put s.old at (tail_bytes refs bs mf) }
{
    s[at] = byte_bits(refs.first.0);
    s[at + 1] = byte_bits(refs.second.0);
    s[at + 2] = bs;
    s[at + 3] = mf;
}
