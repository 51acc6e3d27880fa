// The candidate search, on lent bytes.
ghost use Rattle.std.specs.Prelude.{◌≡◌, ◌≤◌, length};
ghost use Rattle.std.specs.Bool.{OnFalse};
ghost use Rattle.ground.specs.Script.{run};
ghost use Rattle.jaskkovir.specs.Searched.{find_lacks, searched_answer, searched_stack, searched_found};

use layout::frame_bytes::FRAME;
use layout::tile_bytes::TILE;
use search::lent_bytes::question::ASK;
use search::lent_bytes::whole::find_into;

// Eight records, and the count with the context.
const STACK: usize = 96;

const FOUND: usize = 2;

// Lengths alone, so that a part that is too short is never read.
#[tactic(auto, unfolding(crate::specs::Searched::find_lacks))]
fn find_lacks(frame: usize, tile: usize, ask: usize, stack: usize, found: usize) -> bool
    ensures value { result ≡ find_lacks frame tile ask stack found }
    ensures room { OnFalse result ((109 ≤ frame) × (168 ≤ tile) × (24 ≤ ask) × (96 ≤ stack) × (2 ≤ found)) }
{
    frame < FRAME || tile < TILE || ask < ASK || stack < STACK || found < FOUND
}

// Finds the candidates of a block. The answer is 0, and the stack and the two numbers are laid, or a
// refusal, and then nothing is written.
pub fn jaskkovir_find(
    frame: &[u8],
    tile: &[u8],
    records: &[u8],
    proj: &[u8],
    ask: &[u8],
    stack: &mut [u8],
    found: &mut [u8],
) -> u8
    ensures value { result ≡ searched_answer frame.now tile.now records.now proj.now ask.now
        (length stack.old) (length found.old) }
    ensures stack_after { stack.new
        ≡ run (searched_stack frame.now tile.now records.now proj.now ask.now
        (length stack.old) (length found.old)) stack.old }
    ensures found_after { found.new
        ≡ run (searched_found frame.now tile.now records.now proj.now ask.now
        (length stack.old) (length found.old)) found.old }
{
    if find_lacks(frame.len(), tile.len(), ask.len(), stack.len(), found.len()) {
        return 4;
    }
    find_into(frame, tile, records, proj, ask, stack, found)
}
