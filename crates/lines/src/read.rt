// What programs read.
ghost use Rattle.std.specs.Prelude.{◌≡◌, ◌≤◌, IfOk, length};

use std::io;
use std::io::Read;

// Reads until the buffer is full or the input ends; how many bytes stand at the buffer's start then.
pub fn read_full(input: &mut impl Read, buffer: &mut [u8]) -> io::Result<usize>
    ensures ok { IfOk result (λ n. n ≤ length buffer.new) }

    // An error says nothing of the buffer's bytes.
    ensures length_kept { length buffer.new ≡ length buffer.old }
{
    let mut done: usize = 0;

    // Stays `while`: each step goes on by what was read.
    while done < buffer.len() {
        let n = input.read(&mut buffer[done..])?;
        if n == 0 {
            break;
        }
        done += n;
    }
    Ok(done)
}
