// A capture played on lent bytes.
ghost use Rattle.std.specs.Prelude.{◌≡◌, ◌≤◌, length};
ghost use Rattle.ground.specs.Put.{put};
ghost use Rattle.ground.specs.Script.{run};
ghost use Rattle.jaskkovir.specs.Captured.{shown_answer, shown_desk, steps_of, shown_steps};

use capture::player::play::play_capture;
use ground::write::put_sizes;
use jobs::job::record::Batch;
use std::array;

// Eight numbers of four bytes.
const STEPS: usize = 32;

fn put_steps(s: &mut [u8], batch: Batch)
    requires { 32 ≤ length s.old }
    ensures { s.new ≡ put s.old 0 (steps_of batch) }
{
    let jobs = batch.jobs;
    let numbers: [usize; 8] = array::from_fn(|i| jobs[i].done);
    put_sizes(s, 0, &numbers);
}

// Plays a capture's jobs in list order over proj and saved, which are blank first. The answer is 0,
// and each job's steps are laid over the start of steps, or a refusal, and then nothing is written.
pub fn jaskkovir_play(file: &[u8], proj: &mut [u8], saved: &mut [u8], steps: &mut [u8]) -> u8
    ensures value { result ≡ shown_answer file.now proj.old saved.old (length steps.old) }
    ensures proj_after { proj.new ≡ (shown_desk file.now proj.old saved.old (length steps.old)).proj }
    ensures saved_after { saved.new ≡ (shown_desk file.now proj.old saved.old (length steps.old)).saved }
    ensures steps_after { steps.new
        ≡ run (shown_steps file.now proj.old saved.old (length steps.old)) steps.old }
{
    if steps.len() < STEPS {
        return 4;
    }
    let played = play_capture(file, proj, saved);
    let answer = played.answer;
    if answer == 0 {
        put_steps(steps, played.batch);
    }
    answer
}
