// A line of the list: a command, by its first number, with the numbers behind it.
use crate::batch::{play_capture, take_steps};
use crate::calls::call;
use crate::commands::Command;
use crate::desk::{Desk, Role, set_length};
use crate::finding::find;
use crate::lay::{lay, lend};
use crate::leaves::leaf;
use crate::numbers::nth;
use std::io;

// A number that no role has is that of an empty part, which nothing can be laid over.
fn lay_out(desk: &mut Desk, command: Command, line: &[usize]) {
    if let Ok(role) = Role::try_from(nth(line, 1)) {
        match command {
            Command::SetLength => set_length(desk, role, nth(line, 2)),
            Command::Lay => lay(desk, role, line),
            _ => lend(desk, role),
        }
    }
}

pub(crate) fn obey(rt: &impl Print, desk: &mut Desk, line: &[usize]) -> io::Result<()> {
    let Ok(command) = Command::try_from(nth(line, 0)) else {
        return Ok(());
    };
    match command {
        Command::SetLength | Command::Lay | Command::Lend => {
            lay_out(desk, command, line);
            Ok(())
        }
        Command::Call(function) => call(rt, desk, function, line),
        Command::Find => find(rt, desk, line),
        Command::PlayCapture => play_capture(rt, desk, line),
        Command::TakeSteps => take_steps(rt, desk, line),
        Command::Leaf(function) => leaf(rt, desk, function, line),
    }
}
