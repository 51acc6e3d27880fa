// Lines of cells: a letter, then row, column, the vector's y and x, and the reference or distance.
use cells::cell::Cell;
use cells::pos::Pos8;
use std::io;

const CELL: usize = 5;

// What the cells of a buffer are.
#[derive(Clone, Copy)]
pub(crate) enum Field {
    Projected,
    Saved,
}

impl Field {
    fn letter(self) -> char {
        match self {
            Field::Projected => 'p',
            Field::Saved => 's',
        }
    }

    // A projected cell without motion has the vector INVALID; a saved one has reference 0.
    fn is_absent(self, c: Cell) -> bool {
        match self {
            Field::Projected => c.projected_absent(),
            Field::Saved => c.saved_absent(),
        }
    }
}

// The row and the column of a cell, where rows are stride cells long. No frame has a stride of 0.
fn place_of(i: usize, stride: Pos8) -> (usize, usize) {
    if stride.0 == 0 {
        (0, i)
    } else {
        (i / stride.0, i % stride.0)
    }
}

// The cells with motion, by row, then column.
pub(crate) fn show_cells(
    rt: &impl Print,
    bytes: &[u8],
    field: Field,
    stride: Pos8,
) -> io::Result<()> {
    let letter = field.letter();
    for i in 0..bytes.len() / CELL {
        let c = Cell::read(bytes, i);
        if !field.is_absent(c) {
            let (row, column) = place_of(i, stride);
            println!(rt;
                "{letter} {row} {column} {} {} {}",
                c.mv.y, c.mv.x, c.reference.0
            )?;
        }
    }
    Ok(())
}
