// A frame record in 109 bytes, the low byte of a number first: twelve numbers of four bytes, three
// of one, seven hints of four bytes, three selected references of ten.
ghost use Rattle.std.specs.Prelude.{◌≡◌, true, ◌∷◌, [], ℕ, ◌+◌, ◌*◌, ◌≤◌, ◌<◌, ◌%◌, ltb, length, get_or};
ghost use Rattle.ground.specs.Put.{put};
ghost use Rattle.ground.specs.Below.{all_below};
ghost use Rattle.ground.specs.Little.{fours};
ghost use Rattle.frame.specs.hints.Description.{hinted, setup_answer};
ghost use Rattle.frame.specs.hints.Distances.{flag_of, well_hint};
ghost use Rattle.frame.specs.Mfmv.{slot_in, no_mfmv, well_mfmv};
ghost use Rattle.frame.specs.Record.{frame_of, no_hint, well_frame};
ghost use Rattle.layout.specs.FrameBytes.{sizes_at, ref_hint_at, ref_hints_at, cur_of, offsets_at, mfmv_at, frame_at};
ghost use Rattle.layout.specs.FrameBytes.{hint_bytes, hints_bytes, cur_number, mfmv_bytes, mfmvs_bytes, size_numbers, frame_bytes};

use crate::start::first_bytes;
use cells::pos::{Pos4, Pos8};
use frame::extent::sizes::Sizes;
use frame::hints::description::Description;
use frame::hints::distances::{RefHint, ref_hints};
use frame::hints::select::{Selection, select};
use frame::mfmv::{Mfmv, slot};
use frame::record::Frame;
use frame::setup::sizes_for;
use ground::read::size_at;
use ground::twos::{read_half, write_half};
use ground::write::{put_bytes, put_sizes};
use std::array;

pub const FRAME: usize = 109;

// Stands for a reference that is skipped: no distance is that far.
const SKIPPED: i16 = -32768;

pub fn sizes_at(s: &[u8]) -> Sizes
    requires { 109 ≤ length s.now }
    ensures { result ≡ sizes_at s.now }
{
    Sizes {
        width: size_at(s, 0),
        height: size_at(s, 4),
        iw4: Pos4(size_at(s, 8)),
        ih4: Pos4(size_at(s, 12)),
        iw8: Pos8(size_at(s, 16)),
        ih8: Pos8(size_at(s, 20)),
        sbsz: Pos4(size_at(s, 24)),
        stride: Pos8(size_at(s, 28)),
        tile_rows: size_at(s, 32),
        n_blocks: size_at(s, 36),
        n_tile_threads: size_at(s, 40),
        n_frame_threads: size_at(s, 44),
    }
}

fn flag_at(s: &[u8], at: usize) -> u8
    requires { at < length s.now }
    ensures { result ≡ get_or s.now at 0 }
{
    s[at]
}

// 1 where temporal search is in use, which is where a reference was selected.
pub fn use_ref_frame_mvs_in(s: &[u8]) -> u8
    requires { 109 ≤ length s.now }
    ensures { result ≡ (frame_at s.now).use_ref_frame_mvs }
{
    flag_at(s, 48)
}

// The header's flag of temporal search.
pub fn temporal_in(s: &[u8]) -> u8
    requires { 109 ≤ length s.now }
    ensures { result ≡ (frame_at s.now).temporal }
{
    flag_at(s, 49)
}

fn hint_at(s: &[u8], at: usize) -> RefHint
    requires { at + 4 ≤ length s.now }
    ensures { result ≡ ref_hint_at s.now at }
{
    RefHint {
        sign_bias: s[at],
        mfmv_sign: s[at + 1],
        pocdiff: read_half(s, at + 2),
    }
}

// Hint i of the seven.
pub fn hint_in(s: &[u8], i: usize) -> RefHint
    requires { (109 ≤ length s.now) × (i < 7) }
    ensures { result ≡ get_or (ref_hints_at s.now) i no_hint }
{
    hint_at(s, 51 + 4 * i)
}

fn hints_at(s: &[u8]) -> [RefHint; 7]
    requires { 109 ≤ length s.now }
    ensures { result ≡ ref_hints_at s.now }
{
    array::from_fn(|i| hint_in(s, i))
}

fn cur_of(z: i16) -> Option<i16>
    ensures { result ≡ cur_of z }
{
    if z == SKIPPED { None } else { Some(z) }
}

fn offsets_at(s: &[u8], at: usize) -> [u8; 7]
    requires { at + 7 ≤ length s.now }
    ensures { result ≡ offsets_at s.now at }
{
    first_bytes(&s[at..])
}

fn mfmv_at(s: &[u8], at: usize) -> Mfmv
    requires { at + 10 ≤ length s.now }
    ensures { result ≡ mfmv_at s.now at }
{
    let reference = s[at];
    let ref2cur = cur_of(read_half(s, at + 1));
    let ref2ref = offsets_at(s, at + 3);
    Mfmv {
        reference,
        ref2cur,
        ref2ref,
    }
}

// Place i of the selected references.
fn mfmv_in(s: &[u8], i: usize) -> Mfmv
    requires { (109 ≤ length s.now) × (i < 3) }
    ensures { result ≡ get_or (frame_at s.now).mfmvs i no_mfmv }
{
    mfmv_at(s, 79 + 10 * i)
}

// The record that the bytes hold, whatever they are: whether setup can give it, its check says.
pub fn frame_at(s: &[u8]) -> Frame
    requires { 109 ≤ length s.now }
    ensures { result ≡ frame_at s.now }
{
    let sizes = sizes_at(s);
    let refs = hints_at(s);
    let mfmvs = [mfmv_at(s, 79), mfmv_at(s, 89), mfmv_at(s, 99)];
    Frame {
        sizes,
        use_ref_frame_mvs: s[48],
        temporal: s[49],
        refs,
        n_mfmvs: usize::from(s[50]),
        mfmvs,
    }
}

fn well_hints(s: &[u8]) -> bool
    requires { 109 ≤ length s.now }
    ensures { result ≡ all_below 7 (λ i. well_hint (get_or (ref_hints_at s.now) i no_hint)) }
{
    (0..7).all(|i| hint_in(s, i).well_formed())
}

fn well_mfmvs(s: &[u8]) -> bool
    requires { 109 ≤ length s.now }
    ensures { result ≡ all_below 3 (λ i. well_mfmv (get_or (frame_at s.now).mfmvs i no_mfmv)) }
{
    (0..3).all(|i| mfmv_in(s, i).well_formed())
}

// Whether the bytes are a record that setup can give: its check on each part where it stands, for
// the calls that are made for each block or row and want no more of the record than its sizes.
pub fn well_frame(s: &[u8]) -> bool
    requires { 109 ≤ length s.now }
    ensures { result ≡ well_frame (frame_at s.now) }
{
    let sizes = sizes_at(s);
    if !sizes.well_formed() {
        return false;
    }
    if 1 < s[48] {
        return false;
    }
    if 1 < s[49] {
        return false;
    }
    if 3 < s[50] {
        return false;
    }
    well_hints(s) && well_mfmvs(s)
}

fn put_hint(s: &mut [u8], at: usize, h: RefHint)
    requires { at + 4 ≤ length s.old }
    ensures { s.new ≡ put s.old at (hint_bytes h) }
{
    s[at] = h.sign_bias;
    s[at + 1] = h.mfmv_sign;
    write_half(s, at + 2, h.pocdiff);
}

fn put_hints(s: &mut [u8], refs: [RefHint; 7])
    requires { 109 ≤ length s.old }
    ensures { s.new ≡ put s.old 51 (hints_bytes refs) }
{
    for (i, h) in refs.iter().enumerate() {
        put_hint(s, 51 + 4 * i, *h);
    }
}

fn cur_number(c: Option<i16>) -> i16
    ensures { result ≡ cur_number c }
{
    match c {
        None => SKIPPED,
        Some(z) => z,
    }
}

fn put_mfmv(s: &mut [u8], at: usize, m: Mfmv)
    requires { at + 10 ≤ length s.old }
    ensures { s.new ≡ put s.old at (mfmv_bytes m) }
{
    let cur = m.ref2cur;
    let offsets = m.ref2ref;
    s[at] = m.reference;
    write_half(s, at + 1, cur_number(cur));
    put_bytes(s, at + 3, &offsets);
}

// Place i of the selected references. What is made is written at once: where it is handed on, its
// bytes are stored one by one and loaded in words, and the load waits for the stores. hints and held
// are d's, lent.
fn put_slot(s: &mut [u8], d: Description, hints: &[u8], held: &[u8], c: Selection, i: usize)
    requires in_bounds { (109 ≤ length s.old) × (hints.now ≡ d.hints) × (held.now ≡ d.hints_by_ref) × (hinted d ≡ true) }
    requires i_bound { (i < 3) × (get_or c.refs i 0 < 7) }
    ensures { s.new ≡ put s.old (79 + 10 * i) (mfmv_bytes (slot_in d c i)) }
{
    put_mfmv(s, 79 + 10 * i, slot(d, hints, held, c, i));
}

fn put_slots(s: &mut [u8], d: Description, hints: &[u8], held: &[u8], c: Selection)
    requires in_bounds { (109 ≤ length s.old) × (hints.now ≡ d.hints) × (held.now ≡ d.hints_by_ref) × (hinted d ≡ true) }
    requires by_index { (i : ℕ) → i < 3 → get_or c.refs i 0 < 7 }
    ensures { s.new ≡ put s.old 79 (mfmvs_bytes (slot_in d c 0 ∷ slot_in d c 1 ∷ slot_in d c 2 ∷ [])) }
{
    put_slot(s, d, hints, held, c, 0);
    put_slot(s, d, hints, held, c, 1);
    put_slot(s, d, hints, held, c, 2);
}

fn put_numbers(s: &mut [u8], z: Sizes)
    requires { 109 ≤ length s.old }
    ensures { s.new ≡ put s.old 0 (fours (size_numbers z)) }
{
    let numbers = [
        z.width,
        z.height,
        z.iw4.0,
        z.ih4.0,
        z.iw8.0,
        z.ih8.0,
        z.sbsz.0,
        z.stride.0,
        z.tile_rows,
        z.n_blocks,
        z.n_tile_threads,
        z.n_frame_threads,
    ];
    put_sizes(s, 0, &numbers);
}

// n references are selected.
fn put_flags(s: &mut [u8], n: usize, temporal: u8)
    requires { 109 ≤ length s.old }
    ensures { s.new ≡ put s.old 48 (flag_of (ltb 0 n) ∷ temporal ∷ n % 256 ∷ []) }
{
    s[48] = u8::from(0 < n);
    s[49] = temporal;
    s[50] = (n % 256) as u8;
}

// The record of a description that was accepted, over the start of s. hints and held are d's, lent.
// No record is made elsewhere and copied.
pub fn put_frame(s: &mut [u8], d: Description, hints: &[u8], held: &[u8], present: [u8; 7])
    requires { (109 ≤ length s.old) × (setup_answer d present ≡ 0) × (hints.now ≡ d.hints) × (held.now ≡ d.hints_by_ref) }
    ensures { s.new ≡ put s.old 0 (frame_bytes (frame_of d present)) }
{
    let c = select(d, present);
    put_numbers(s, sizes_for(d));
    put_flags(s, c.n, d.temporal);
    put_hints(s, ref_hints(d));
    put_slots(s, d, hints, held, c);
}
