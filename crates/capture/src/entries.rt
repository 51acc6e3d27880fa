// A capture file's entries, nine bytes each behind the first byte, and the rules that they obey.
ghost use Rattle.std.specs.Prelude.{◌≡◌, true, false, ◌+◌, ◌*◌, ◌≤◌, ◌<◌, length, MatchOption};
ghost use Rattle.capture.specs.File.{entries, kind_at, offset_at, length_at, start_of, has_entries, tiled};
ghost use Rattle.capture.specs.File.{whole_body, kinds, is_new, once, entry_of, found, well_file};

use ground::read::u32_at;
use jobs::job::job_bytes::CAPTURE_JOB;

const ENTRY: usize = 9;

// How many entries the file says it has.
fn entries_of(file: &[u8]) -> usize
    ensures { (result ≡ entries file.now) × (result < 256) }
{
    file.first().map_or(0, |n| usize::from(*n))
}

// The entries of a file that has as many as it says.
#[derive(Clone, Copy)]
pub(crate) struct Entries<'a> {
    pub(crate) file: &'a [u8],
    ghost some: { 1 ≤ entries file.now },
    ghost few: { entries file.now ≤ 32 },
    ghost there: { 1 + 9 * entries file.now ≤ length file.now },
}

impl<'a> Entries<'a> {
    pub(crate) fn of(file: &'a [u8]) -> Option<Entries<'a>>
        ensures { MatchOption result (has_entries file.now ≡ false) (λ e. e.file.now ≡ file.now) }
    {
        let n = entries_of(file);
        if n < 1 {
            return None;
        }
        if 32 < n {
            return None;
        }
        if file.len() < 1 + ENTRY * n {
            return None;
        }
        Some(Entries { file })
    }

    fn count(&self) -> usize
        ensures { result ≡ entries self.now.file.now }
    {
        usize::from(self.file[0])
    }

    fn kind(&self, i: usize) -> usize
        requires { i < entries self.now.file.now }
        ensures { result ≡ kind_at self.now.file.now i }
    {
        usize::from(self.file[1 + ENTRY * i])
    }

    fn offset(&self, i: usize) -> usize
        requires { i < entries self.now.file.now }
        ensures { (result ≡ offset_at self.now.file.now i) × (result < 4294967296) }
    {
        u32_at(self.file, 2 + ENTRY * i) as usize
    }

    fn length(&self, i: usize) -> usize
        requires { i < entries self.now.file.now }
        ensures { (result ≡ length_at self.now.file.now i) × (result < 4294967296) }
    {
        u32_at(self.file, 6 + ENTRY * i) as usize
    }

    // Each body starts where the one before it ends, and the last ends where the file does.
    fn are_tiled(&self) -> bool
        ensures { result ≡ tiled self.now.file.now }
    {
        let n = self.count();
        let mut at = 1 + ENTRY * n;
        for i in 0..n {
            if self.offset(i) != at {
                return false;
            }
            at += self.length(i);
        }
        at == self.file.len()
    }

    fn are_whole(&self) -> bool
        ensures { result ≡ kinds self.now.file.now }
    {
        (0..self.count()).all(|i| is_whole(self.kind(i), self.length(i)))
    }

    // Whether no entry before entry j has its kind.
    fn is_new(&self, j: usize) -> bool
        requires { j < entries self.now.file.now }
        ensures { result ≡ is_new self.now.file.now j }
    {
        let kind = self.kind(j);
        (0..j).all(|i| self.kind(i) != kind)
    }

    fn are_new(&self) -> bool
        ensures { result ≡ once self.now.file.now }
    {
        (0..self.count()).all(|j| self.is_new(j))
    }

    // The first entry of a kind, by its number.
    pub(crate) fn find(&self, kind: usize) -> Option<usize>
        ensures { result ≡ found self.now.file.now kind }
    {
        (0..self.count()).find(|i| self.kind(*i) == kind)
    }

    // Where entry i's body starts.
    pub(crate) fn start(&self, i: usize) -> usize
        requires { i ≤ entries self.now.file.now }
        ensures { result ≡ start_of self.now.file.now i }
    {
        let mut at = 1 + ENTRY * self.count();
        for k in 0..i {
            at += self.length(k);
        }
        at
    }

    // Whether the file keeps the rules.
    pub(crate) fn are_well(&self) -> bool
        ensures { result ≡ well_file self.now.file.now }
    {
        if !self.are_tiled() {
            return false;
        }
        if !self.are_whole() {
            return false;
        }
        if !self.are_new() {
            return false;
        }
        if self.kind(0) != 1 {
            return false;
        }
        self.find(2).is_some()
    }
}

// A description of 67 bytes, whole jobs, whole records, whole cells; no other kind.
fn is_whole(kind: usize, n: usize) -> bool
    ensures { result ≡ whole_body kind n }
{
    match kind {
        1 => n == 67,
        2 => n % CAPTURE_JOB == 0,
        4 => n % 12 == 0,
        16..=22 => n % 5 == 0,
        _ => false,
    }
}

pub fn is_well(file: &[u8]) -> bool
    ensures { result ≡ well_file file.now }
{
    match Entries::of(file) {
        Some(e) => e.are_well(),
        None => false,
    }
}
