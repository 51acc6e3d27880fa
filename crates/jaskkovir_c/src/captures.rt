// A capture played on lent bytes.
ghost use Rattle.std.specs.Prelude.{◌≡◌, length};
ghost use Rattle.ground.specs.Script.{run};
ghost use Rattle.jaskkovir.specs.Captured.{shown_answer, shown_desk, shown_steps};

// Plays a capture's jobs in list order over proj and saved, which are blank first. The answer is 0,
// and each job's steps are laid over the start of steps, or a refusal, and then nothing is written.
#[unsafe(no_mangle)]
pub extern "C" fn jaskkovir_play(
    file: &[u8],
    proj: &mut [u8],
    saved: &mut [u8],
    steps: &mut [u8],
) -> u8
    ensures value { result ≡ shown_answer file.now proj.old saved.old (length steps.old) }
    ensures proj_after { proj.new ≡ (shown_desk file.now proj.old saved.old (length steps.old)).proj }
    ensures saved_after { saved.new ≡ (shown_desk file.now proj.old saved.old (length steps.old)).saved }
    ensures steps_after { steps.new
        ≡ run (shown_steps file.now proj.old saved.old (length steps.old)) steps.old }
{
    jaskkovir::captures::jaskkovir_play(file, proj, saved, steps)
}
