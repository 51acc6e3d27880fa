// Standard input, where a list stands as text: lines of decimal numbers. Whatever is no digit stands
// between numbers, and a minus right before one makes it negative.
ghost use Rattle.std.specs.Prelude.{◌≤◌, length};

// Numbers above this have no room for a digit more.
const MOST_TENTH: usize = 1844674407370955160;

// The number with a digit more. One that would be too large stays, where `parse` would refuse it.
fn with_digit(number: usize, digit: u8) -> usize {
    if number <= MOST_TENTH {
        return 10 * number + (digit % 16) as usize;
    }
    number
}

// A negative number is taken modulo 2^64.
fn number_in(digits: &[u8], negative: bool) -> usize {
    let number = digits
        .iter()
        .fold(0, |number, digit| with_digit(number, *digit));
    if negative {
        number.wrapping_neg()
    } else {
        number
    }
}

fn is_number(run: &[u8]) -> bool {
    run.first().is_some_and(|b| b.is_ascii_digit())
}

// The numbers of a line, in the room for them. Those that there is no room for are left out.
pub(crate) fn numbers_in<'a>(line: &[u8], room: &'a mut [usize]) -> &'a [usize] {
    let mut count: usize = 0;
    let mut negative = false;
    for run in line.chunk_by(|a, b| a.is_ascii_digit() == b.is_ascii_digit()) {
        if is_number(run) && count < room.len() {
            room[count] = number_in(run, negative);
            count += 1;
        }
        negative = run.ends_with(b"-");
    }
    &room[..count]
}

// The place behind the last whole line of the text; its end where there is none.
pub(crate) fn whole_lines(text: &[u8]) -> usize
    ensures { result ≤ length text.now }
{
    match text.iter().rposition(|b| *b == b'\n') {
        Some(i) => i + 1,
        None => text.len(),
    }
}
