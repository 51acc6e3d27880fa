// A search's question in 24 bytes, the low byte of a number first: two references, the size code, the
// flag of the point above right, row and column of four bytes, each reference's global vector with its
// flag, and the flags of integer vectors and of high precision.
ghost use Rattle.std.specs.Prelude.{◌≡◌, ◌≤◌, length};
ghost use Rattle.cells.specs.Block.{refs_at};
ghost use Rattle.search.specs.lent_bytes.Question.{globals_at, ask_at};

use crate::front::ask::Ask;
use cells::block::{MvPair, RefPair};
use cells::cell::Ref;
use cells::pos::Pos4;
use ground::read::size_at;
use ground::twos::signed_byte;
use vector::mv::Mv;

pub const ASK: usize = 24;

fn refs_at(s: &[u8]) -> RefPair
    requires { 24 ≤ length s.now }
    ensures { result ≡ refs_at s.now 0 }
{
    RefPair {
        first: Ref(signed_byte(s[0])),
        second: Ref(signed_byte(s[1])),
    }
}

fn globals_at(s: &[u8]) -> MvPair
    requires { 24 ≤ length s.now }
    ensures { result ≡ globals_at s.now }
{
    MvPair {
        first: Mv::read(s, 12),
        second: Mv::read(s, 17),
    }
}

pub fn ask_at(s: &[u8]) -> Ask
    requires { 24 ≤ length s.now }
    ensures { result ≡ ask_at s.now }
{
    let refs = refs_at(s);
    let gmv = globals_at(s);
    Ask {
        refs,
        bs: s[2],
        decoded: s[3],
        y: Pos4(size_at(s, 4)),
        x: Pos4(size_at(s, 8)),
        gmv,
        first_above: s[16],
        second_above: s[21],
        integer: s[22],
        hp: s[23],
    }
}
