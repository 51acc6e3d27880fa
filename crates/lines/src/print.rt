// Lines of words and decimal numbers on standard output. A line is a start, any words and numbers,
// an end.
use std::io;

// A number that a line starts with: a kind or an answer, and these are bytes.
pub fn start(rt: &impl Print, n: u8) -> io::Result<()> {
    print!(rt; "{n}")
}

// A word that a line starts with.
pub fn word(rt: &impl Print, w: &[u8]) -> io::Result<()> {
    rt.write_all(w)
}

// A word behind what stands before it.
pub fn next_word(rt: &impl Print, w: &[u8]) -> io::Result<()> {
    rt.write_all(b" ")?;
    rt.write_all(w)
}

// A number behind those before it.
pub fn number(rt: &impl Print, n: u64) -> io::Result<()> {
    print!(rt; " {n}")
}

pub fn signed(rt: &impl Print, c: i16) -> io::Result<()> {
    print!(rt; " {c}")
}

// A motion cell's numbers: the vector's y and x, and the reference or distance.
pub fn motion(rt: &impl Print, y: i16, x: i16, reference: i8) -> io::Result<()> {
    print!(rt; " {y} {x} {reference}")
}

// What stands for a number that isn't there.
pub fn absent(rt: &impl Print) -> io::Result<()> {
    rt.write_all(b" -")
}

pub fn end(rt: &impl Print) -> io::Result<()> {
    rt.write_all(b"\n")
}
