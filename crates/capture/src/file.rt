// What stands in a capture file for a kind.
ghost use Rattle.std.specs.Prelude.{◌≡◌, true, false, MatchResult};
ghost use Rattle.capture.specs.File.{well_file, scan_of, part_of, body_of};

use crate::entries::{Entries, is_well};

// A file that breaks a rule.
#[derive(Clone, Copy, Debug, PartialEq, Eq)]
pub struct Malformed;

// Where a body stands in its file: from start to before end.
#[derive(Clone, Copy, Debug, PartialEq, Eq)]
pub struct Span {
    pub start: usize,
    pub end: usize,
}

// A file that keeps the rules.
#[derive(Clone, Copy)]
pub(crate) struct Capture<'a> {
    pub(crate) entries: Entries<'a>,
    ghost well: { well_file entries.file.now ≡ true },
}

fn part(file: &[u8], span: Span) -> &[u8]
    ensures { result.now ≡ part_of file.now span.start span.end }
{
    file.get(span.start..span.end).unwrap_or(&[])
}

impl<'a> Capture<'a> {
    pub(crate) fn of(file: &'a [u8]) -> Result<Capture<'a>, Malformed>
        ensures { MatchResult result (λ c. c.entries.file.now ≡ file.now) (λ _. well_file file.now ≡ false) }
    {
        match Entries::of(file) {
            Some(entries) if is_well(file) => Ok(Capture { entries }),
            _ => Err(Malformed),
        }
    }

    // Where the body of a kind starts and ends.
    pub(crate) fn scan(&self, kind: u8) -> Option<Span>
        ensures { Ok result ≡ scan_of self.now.entries.file.now kind }
    {
        let i = self.entries.find(usize::from(kind))?;
        Some(Span {
            start: self.entries.start(i),
            end: self.entries.start(i + 1),
        })
    }

    // The body of a kind, as that part of the lent file: empty for an absent kind.
    pub(crate) fn body(&self, kind: u8) -> &'a [u8]
        ensures { result.now ≡ body_of self.now.entries.file.now kind }
    {
        match self.scan(kind) {
            Some(span) => part(self.entries.file, span),
            None => &[],
        }
    }
}

// Whether the file is malformed, has no entry of the kind, or has one: then where its body stands.
pub fn scan_for(file: &[u8], kind: u8) -> Result<Option<Span>, Malformed>
    ensures { result ≡ scan_of file.now kind }
{
    Ok(Capture::of(file)?.scan(kind))
}

// The body of a kind, as that part of the lent file: empty for an absent kind or a malformed file.
pub fn body(file: &[u8], kind: u8) -> &[u8]
    ensures { result.now ≡ body_of file.now kind }
{
    match Capture::of(file) {
        Ok(capture) => capture.body(kind),
        Err(Malformed) => &[],
    }
}
