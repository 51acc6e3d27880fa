// What a line commands, by its first number.

// An exported function that writes one part at most.
#[derive(Clone, Copy)]
pub(crate) enum Call {
    InitFrame,
    Check,
    ListedSizes,
    TileSbrowInit,
    SplatMv,
    SaveTmvs,
    LoadTmvs,
    Admit,
}

// An inner function.
#[derive(Clone, Copy)]
pub(crate) enum Leaf {
    Projection,
    Precision,
    Distance,
    Negation,
    Cell,
    Record,
}

#[derive(Clone, Copy)]
pub(crate) enum Command {
    // A part is laid by its length, by bytes, or as it is before a call that writes it.
    SetLength,
    Lay,
    Lend,
    Call(Call),
    Find,
    PlayCapture,
    TakeSteps,
    Leaf(Leaf),
}

// A number that commands nothing: a title's, or that of a batch whose steps are to be taken in many
// orders, which is for rust/compare.
#[derive(Drop)]
pub(crate) struct NoCommand;

impl TryFrom<usize> for Command {
    type Error = NoCommand;

    fn try_from(number: usize) -> Result<Command, NoCommand> {
        match number {
            1 => Ok(Command::SetLength),
            2 => Ok(Command::Lay),
            3 => Ok(Command::Lend),
            10 => Ok(Command::Call(Call::InitFrame)),
            11 => Ok(Command::Call(Call::Check)),
            12 => Ok(Command::Call(Call::ListedSizes)),
            13 => Ok(Command::Call(Call::TileSbrowInit)),
            14 => Ok(Command::Call(Call::SplatMv)),
            15 => Ok(Command::Call(Call::SaveTmvs)),
            16 => Ok(Command::Call(Call::LoadTmvs)),
            17 => Ok(Command::Find),
            18 => Ok(Command::Call(Call::Admit)),
            19 => Ok(Command::PlayCapture),
            20 => Ok(Command::TakeSteps),
            30 => Ok(Command::Leaf(Leaf::Projection)),
            31 => Ok(Command::Leaf(Leaf::Precision)),
            32 => Ok(Command::Leaf(Leaf::Distance)),
            33 => Ok(Command::Leaf(Leaf::Negation)),
            34 => Ok(Command::Leaf(Leaf::Cell)),
            35 => Ok(Command::Leaf(Leaf::Record)),
            _ => Err(NoCommand),
        }
    }
}
