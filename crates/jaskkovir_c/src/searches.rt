// The candidate search, on lent bytes.
ghost use Rattle.std.specs.Prelude.{◌≡◌, length};
ghost use Rattle.ground.specs.Script.{run};
ghost use Rattle.jaskkovir.specs.Searched.{searched_answer, searched_stack, searched_found};

// Finds the candidates of a block. The answer is 0, and the stack and the two numbers are laid, or a
// refusal, and then nothing is written.
#[unsafe(no_mangle)]
pub extern "C" fn jaskkovir_find(
    frame: &[u8],
    tile: &[u8],
    records: &[u8],
    proj: &[u8],
    ask: &[u8],
    stack: &mut [u8],
    found: &mut [u8],
) -> u8
    ensures value { result ≡ searched_answer frame.now tile.now records.now proj.now ask.now
        (length stack.old) (length found.old) }
    ensures stack_after { stack.new
        ≡ run (searched_stack frame.now tile.now records.now proj.now ask.now
        (length stack.old) (length found.old)) stack.old }
    ensures found_after { found.new
        ≡ run (searched_found frame.now tile.now records.now proj.now ask.now
        (length stack.old) (length found.old)) found.old }
{
    jaskkovir::searches::jaskkovir_find(frame, tile, records, proj, ask, stack, found)
}
