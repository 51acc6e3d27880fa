// What a call changed in a part, told as runs of units that changed alike: a line for each, with the
// part's role, the first byte's place, how many units there are, and what one's bytes became.
ghost use Rattle.std.specs.Prelude.{◌+◌, ◌<◌, ◌≤◌, IfOk, length};

use crate::desk::{Role, number_of};
use lines::print;
use std::io;

// A cell, a record, a job; any other part is one unit.
fn unit_of(role: Role) -> usize
    ensures { 0 < result }
{
    match role {
        Role::Proj | Role::Saved => 5,
        Role::Records => 12,
        Role::Jobs => 17,
        _ => 256,
    }
}

// The bytes of a part before a call and after it.
#[derive(Clone, Copy)]
pub(crate) struct Change<'a> {
    pub(crate) role: Role,
    pub(crate) before: &'a [u8],
    pub(crate) after: &'a [u8],
}

impl Change<'_> {
    // What a byte became; None where it stayed.
    fn byte_at(self, i: usize) -> Option<u8>
        requires { i < length self.after.now }
    {
        if i < self.before.len() && self.before[i] != self.after[i] {
            Some(self.after[i])
        } else {
            None
        }
    }

    // Whether the unit at a place changed as the one before it.
    fn is_alike(self, at: usize, unit: usize) -> bool
        requires { (unit ≤ at) × (at + unit ≤ length self.after.now) }
    {
        let first = at - unit;
        for i in 0..unit {
            if self.byte_at(first + i) != self.byte_at(at + i) {
                return false;
            }
        }
        true
    }

    fn is_changed(self, at: usize, end: usize) -> bool
        requires { (at ≤ end) × (end ≤ length self.after.now) }
    {
        for i in at..end {
            if self.byte_at(i).is_some() {
                return true;
            }
        }
        false
    }

    // The place behind the units that changed as the one that ends at a place.
    fn run_end(self, end: usize, unit: usize) -> usize
        requires { (0 < unit) × (unit ≤ end) × (end ≤ length self.after.now) }
        ensures { (end ≤ result) × (result ≤ length self.entry.after.now) }
    {
        let mut i = end;

        // Steps by a unit, as long as the last was like the one before.
        while unit <= self.after.len() - i && self.is_alike(i, unit) {
            i += unit;
        }
        i
    }

    fn show_bytes(self, rt: &impl Print, at: usize, end: usize) -> io::Result<()>
        requires { (at ≤ end) × (end ≤ length self.after.now) }
    {
        for i in at..end {
            match self.byte_at(i) {
                Some(b) => print::number(rt, b as u64)?,
                None => print::absent(rt)?,
            }
        }
        Ok(())
    }

    fn show_run(self, rt: &impl Print, at: usize, end: usize, count: usize) -> io::Result<()>
        requires { (at ≤ end) × (end ≤ length self.after.now) }
    {
        if self.is_changed(at, end) {
            print::number(rt, number_of(self.role) as u64)?;
            print::number(rt, at as u64)?;
            print::number(rt, count as u64)?;
            self.show_bytes(rt, at, end)?;
            print::end(rt)?;
        }
        Ok(())
    }

    // The run that starts at a place; the place behind it.
    fn show_from(self, rt: &impl Print, at: usize) -> io::Result<usize>
        requires { at < length self.after.now }
        ensures { IfOk result (λ r. (at < r) × (r ≤ length self.entry.after.now)) }
    {
        let unit = unit_of(self.role).min(self.after.len() - at);
        let end = at + unit;
        let behind = self.run_end(end, unit);
        self.show_run(rt, at, end, (behind - at) / unit)?;
        Ok(behind)
    }

    pub(crate) fn show(self, rt: &impl Print) -> io::Result<()> {
        let mut at: usize = 0;

        // Steps by what a run has.
        while at < self.after.len() {
            at = self.show_from(rt, at)?;
        }
        Ok(())
    }
}
