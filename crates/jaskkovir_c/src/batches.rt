// Jobs on lent bytes: admission of a batch, and a step of one of its jobs.
ghost use Rattle.std.specs.Prelude.{◌≡◌, length};
ghost use Rattle.ground.specs.Script.{run};
ghost use Rattle.motion.specs.loading.Fields.{lent};
ghost use Rattle.jaskkovir.specs.Batched.{admitted_answer, stepped_number, stepped_proj, stepped_saved, stepped_jobs};

// Whether the jobs may be stepped, in any order. The answer is 0 or a refusal; nothing is written.
#[unsafe(no_mangle)]
pub extern "C" fn jaskkovir_admit<'a>(
    frame: &[u8],
    present: &[u8],
    jobs: &[u8],
    f0: &'a [u8],
    f1: &'a [u8],
    f2: &'a [u8],
    f3: &'a [u8],
    f4: &'a [u8],
    f5: &'a [u8],
    f6: &'a [u8],
    records: &[u8],
    proj: &[u8],
    saved: &[u8],
) -> u8
    ensures { result ≡ admitted_answer frame.now present.now jobs.now
        (lent f0.now f1.now f2.now f3.now f4.now f5.now f6.now)
        records.now (length proj.now) (length saved.now) }
{
    jaskkovir::batches::jaskkovir_admit(
        frame, present, jobs, f0, f1, f2, f3, f4, f5, f6, records, proj, saved,
    )
}

// Steps job k by one row of work. The answer is 0 where it is counted, DONE where nothing is left to
// do, or a refusal; but for 0 nothing is written.
#[unsafe(no_mangle)]
pub extern "C" fn jaskkovir_step<'a>(
    frame: &[u8],
    present: &[u8],
    jobs: &mut [u8],
    k: usize,
    f0: &'a [u8],
    f1: &'a [u8],
    f2: &'a [u8],
    f3: &'a [u8],
    f4: &'a [u8],
    f5: &'a [u8],
    f6: &'a [u8],
    records: &[u8],
    proj: &mut [u8],
    saved: &mut [u8],
) -> u8
    ensures value { result ≡ stepped_number frame.now present.now jobs.old k
        (lent f0.now f1.now f2.now f3.now f4.now f5.now f6.now)
        records.now (length proj.old) (length saved.old) }
    ensures jobs_after { jobs.new ≡ run (stepped_jobs frame.now present.now jobs.old k
        (lent f0.now f1.now f2.now f3.now f4.now f5.now f6.now)
        records.now (length proj.old) (length saved.old)) jobs.old }
    ensures proj_after { proj.new ≡ run (stepped_proj frame.now present.now jobs.old k
        (lent f0.now f1.now f2.now f3.now f4.now f5.now f6.now)
        records.now (length proj.old) (length saved.old)) proj.old }
    ensures saved_after { saved.new ≡ run (stepped_saved frame.now present.now jobs.old k
        (lent f0.now f1.now f2.now f3.now f4.now f5.now f6.now)
        records.now (length proj.old) (length saved.old)) saved.old }
{
    jaskkovir::batches::jaskkovir_step(
        frame, present, jobs, k, f0, f1, f2, f3, f4, f5, f6, records, proj, saved,
    )
}
