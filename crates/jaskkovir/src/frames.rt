// Frame setup, the Rust's `rav1d_refmvs_init_frame`, the check of a record and the listed sizes, on
// lent bytes.
ghost use Rattle.std.specs.Prelude.{◌≡◌, true, ◌≤◌, length};
ghost use Rattle.std.specs.Bool.{OnFalse};
ghost use Rattle.ground.specs.Answer.{accepted};
ghost use Rattle.ground.specs.Put.{put};
ghost use Rattle.ground.specs.Script.{run};
ghost use Rattle.frame.specs.extent.Sizes.{well_sizes};
ghost use Rattle.frame.specs.hints.Description.{setup_answer};
ghost use Rattle.frame.specs.Record.{frame_of, check_answer};
ghost use Rattle.layout.specs.DescriptionBytes.{described};
ghost use Rattle.layout.specs.FrameBytes.{frame_at, frame_bytes};
ghost use Rattle.jaskkovir.specs.Framed.{whole, init_lacks, init_answer, init_script, checked, listed_lacks, listed_bytes, listed_answer, listed_script};

use frame::extent::sizes::Sizes;
use frame::hints::description::{Description, check_description};
use ground::write::put_sizes;
use layout::frame_bytes::{FRAME, put_frame, sizes_at, well_frame};
use layout::start::first_bytes;

const HINTS: usize = 7;

const HINTS_BY_REF: usize = 49;

pub(crate) const PRESENT: usize = 7;

// Three numbers of four bytes.
const LISTED: usize = 12;

// Lengths alone, so that a part that is too short is never read.
#[tactic(auto, unfolding(crate::specs::Framed::init_lacks))]
fn init_lacks(hints: usize, hints_by_ref: usize, present: usize, frame: usize) -> bool
    ensures value { result ≡ init_lacks hints hints_by_ref present frame }
    ensures room { OnFalse result ((7 ≤ hints) × (49 ≤ hints_by_ref) × (7 ≤ present) × (109 ≤ frame)) }
{
    hints < HINTS || hints_by_ref < HINTS_BY_REF || present < PRESENT || frame < FRAME
}

// hints and held are d's, where they were lent.
fn set_up(d: Description, hints: &[u8], held: &[u8], present: [u8; 7], frame: &mut [u8]) -> u8
    requires { (hints.now ≡ d.hints) × (held.now ≡ d.hints_by_ref) × (109 ≤ length frame.old) }
    ensures value { result ≡ setup_answer d present }
    ensures frame_after { frame.new ≡
        run (accepted (setup_answer d present) (whole (frame_bytes (frame_of d present)))) frame.old }
{
    let answer = check_description(d, held, present);
    if answer != 0 {
        return answer;
    }
    put_frame(frame, d, hints, held, present);
    answer
}

// The answer is 0, and the record is laid over the start of frame, or a refusal, and then nothing is
// written: a caller can keep what it had.
pub fn jaskkovir_init_frame(
    width: usize,
    height: usize,
    sb128: u8,
    hint_bits: u32,
    current_hint: u32,
    hints: &[u8],
    hints_by_ref: &[u8],
    tile_rows: usize,
    tile_threads: usize,
    frame_threads: usize,
    temporal: u8,
    present: &[u8],
    frame: &mut [u8],
) -> u8
    ensures value { result ≡ init_answer
        (init_lacks (length hints.now) (length hints_by_ref.now) (length present.now) (length frame.old))
        (described width height sb128 hint_bits current_hint hints.now hints_by_ref.now
        tile_rows tile_threads frame_threads temporal)
        present.now }
    ensures frame_after { frame.new ≡ run (init_script
        (init_lacks (length hints.now) (length hints_by_ref.now) (length present.now) (length frame.old))
        (described width height sb128 hint_bits current_hint hints.now hints_by_ref.now
        tile_rows tile_threads frame_threads temporal)
        present.now) frame.old }
{
    if init_lacks(hints.len(), hints_by_ref.len(), present.len(), frame.len()) {
        return 4;
    }
    let own = first_bytes(hints);
    let held = first_bytes(hints_by_ref);
    let d = Description {
        width,
        height,
        sb128,
        hint_bits,
        current_hint,
        hints: own,
        hints_by_ref: held,
        tile_rows,
        tile_threads,
        frame_threads,
        temporal,
    };
    set_up(
        d,
        &hints[..HINTS],
        &hints_by_ref[..HINTS_BY_REF],
        first_bytes(present),
        frame,
    )
}

// The answer to a record that comes back: 1 where it isn't one that setup can give.
#[tactic(auto, unfolding(frame::specs::Record::check_answer))]
fn check(frame: &[u8]) -> u8
    requires { 109 ≤ length frame.now }
    ensures { result ≡ check_answer (frame_at frame.now) }
{
    if well_frame(frame) { 0 } else { 1 }
}

#[tactic(auto, unfolding(crate::specs::Framed::checked))]
pub fn jaskkovir_check(frame: &[u8]) -> u8
    ensures { result ≡ checked frame.now }
{
    if frame.len() < FRAME {
        return 4;
    }
    check(frame)
}

#[tactic(auto, unfolding(crate::specs::Framed::listed_bytes))]
fn put_listed(s: &mut [u8], z: Sizes)
    requires { (12 ≤ length s.old) × (well_sizes z ≡ true) }
    ensures { s.new ≡ put s.old 0 (listed_bytes z) }
{
    let numbers = [z.saved_cells(), z.projected_cells(), z.records()];
    put_sizes(s, 0, &numbers);
}

#[tactic(auto, unfolding(crate::specs::Framed::listed_lacks))]
fn listed_lacks(frame: usize, sizes: usize) -> bool
    ensures value { result ≡ listed_lacks frame sizes }
    ensures room { OnFalse result ((109 ≤ frame) × (12 ≤ sizes)) }
{
    frame < FRAME || sizes < LISTED
}

// How much a caller has to lend: cells of a saved field, cells of the projection, records.
pub fn jaskkovir_listed_sizes(frame: &[u8], sizes: &mut [u8]) -> u8
    ensures value { result ≡ listed_answer frame.now (length sizes.old) }
    ensures sizes_after { sizes.new ≡ run (listed_script frame.now (length sizes.old)) sizes.old }
{
    if listed_lacks(frame.len(), sizes.len()) {
        return 4;
    }
    let refusal = check(frame);
    if refusal != 0 {
        return refusal;
    }
    put_listed(sizes, sizes_at(frame));
    0
}
