// One step of a load: the clearing of a row, or a row of a used reference.
ghost use Rattle.std.specs.Prelude.{◌≡◌, ◌+◌, ◌*◌, ◌≤◌, ◌<◌, length};
ghost use Rattle.ground.specs.Script.{run};
ghost use Rattle.motion.specs.Code.Places.{Numbers};
ghost use Rattle.motion.specs.landing.Row.{sources_read, row_script};
ghost use Rattle.motion.specs.loading.Fields.{all_used, lengths_of, cells_of};
ghost use Rattle.motion.specs.loading.Load.{rows_of, steps_of, step_script, step_read};
ghost use Rattle.motion.specs.Code.Needs.{Fielded, Fields, Readable};

use crate::landing::clear::clear_row;
use crate::landing::land::Motion;
use crate::landing::run::load_row;
use crate::landing::source::check_sources;
use crate::loading::fields::UsedFields;
use crate::loading::used::Uses;
use crate::saving::area::Window;

#[tactic(auto, unfolding(crate::specs::loading::Load::rows_of))]
fn rows_of(w: Window) -> usize
    ensures { result ≡ rows_of w }
{
    w.bottom.0.saturating_sub(w.top.0)
}

// A clearing of each row, then each row of each used reference.
#[tactic(auto, unfolding(crate::specs::loading::Load::steps_of, crate::specs::loading::Load::rows_of))]
pub fn steps_of(w: Window, us: Uses) -> usize
    requires { (us.n ≤ 3) × (w.bottom.0 ≤ 65536) }
    ensures { result ≡ steps_of w us }
{
    (1 + us.n) * rows_of(w)
}

fn check_ref(i: usize, w: Window, y: usize, fields: UsedFields<'_>) -> u8
    requires { Fielded (lengths_of (all_used fields)) w i × (y < w.bottom.0) }
    ensures { result ≡ sources_read
        (cells_of (all_used fields.entry) w.stride.0 i y) w }
{
    check_sources(fields.field(i), y * w.stride.0, w)
}

// What step k reads: nothing where it clears.
pub fn check_step(w: Window, k: usize, fields: UsedFields<'_>) -> u8
    requires { Readable (lengths_of (all_used fields)) w k }
    ensures { result ≡ step_read (cells_of (all_used fields.entry) w.stride.0) w k }
{
    let rows = rows_of(w);
    let pass = k / rows;
    if pass == 0 {
        return 0;
    }
    check_ref(pass - 1, w, w.top.0 + k % rows, fields)
}

fn load_ref(i: usize, m: Motion, w: Window, y: usize, fields: UsedFields<'_>, proj: &mut [u8])
    requires fielded { Fielded (lengths_of (all_used fields)) w i × Numbers m }
    requires top_le_y { (w.top.0 ≤ y) × (y < w.bottom.0) × (5 * (w.part + 16 * w.stride.0) ≤ length proj.old) }
    requires w_value { sources_read (cells_of (all_used fields) w.stride.0 i y) w ≡ 0 }
    ensures { proj.new ≡ run
        (row_script (cells_of (all_used fields.entry) w.stride.0 i y) w m y)
        proj.old }
{
    load_row(fields.field(i), proj, w, m, y);
}

// Step k, whose reads have passed.
pub fn load_step(w: Window, us: Uses, k: usize, fields: UsedFields<'_>, proj: &mut [u8])
    requires fields { Fields (lengths_of (all_used fields)) w us }
    requires k_bound { (k < steps_of w us) × (5 * (w.part + 16 * w.stride.0) ≤ length proj.old) }
    requires k_value { step_read (cells_of (all_used fields) w.stride.0) w k ≡ 0 }
    ensures { proj.new ≡ run
        (step_script (cells_of (all_used fields.entry) w.stride.0) w us k)
        proj.old }
{
    let rows = rows_of(w);
    let pass = k / rows;
    let y = w.top.0 + k % rows;
    if pass == 0 {
        clear_row(proj, w, y);
        return;
    }
    let i = pass - 1;
    let at = us.at;
    let u = at[i];
    let m = u.motion;
    load_ref(i, m, w, y, fields, proj);
}
