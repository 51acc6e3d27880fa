// A capture played, and told.
use crate::cells_of::{Field, show_cells};
use capture::player::play::play_capture;
use jobs::job::record::Batch;
use std::io;

// As much as a capture's frame may need: a projection of 4 tile rows, each 16 rows of 32 cells, and
// a saved field of 32 rows.
const PROJECTION: usize = 10240;

const SAVED: usize = 5120;

// Each job was run to its end, and answers as its batch did.
fn show_jobs(rt: &impl Print, batch: Batch, answer: u8) -> io::Result<()> {
    for (k, job) in batch.jobs.iter().take(batch.n).enumerate() {
        println!(rt; "job {k} answer {answer} steps {}", job.done)?;
    }
    Ok(())
}

// What `replay` prints. A capture that is refused has its number told, and nothing else.
pub(crate) fn show(rt: &impl Print, file: &[u8]) -> io::Result<()> {
    let mut proj = [0u8; PROJECTION];
    let mut saved = [0u8; SAVED];
    let played = play_capture(file, &mut proj, &mut saved);
    if played.answer != 0 {
        return println!(rt; "refused {}", played.answer);
    }
    show_jobs(rt, played.batch, played.answer)?;
    show_cells(rt, &proj, Field::Projected, played.stride)?;
    show_cells(rt, &saved, Field::Saved, played.stride)
}
