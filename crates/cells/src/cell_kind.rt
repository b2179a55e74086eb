// The kinds of cell that there are, by name.
ghost use Rattle.cells.specs.Names.{Names};

// Each kind with its number in the byte formats.
#[derive(Clone, Copy, PartialEq, Eq, Debug)]
pub enum CellKind {
    Single = 1,
    Pair = 2,
    Four = 3,
}

// A number that is no kind's.
#[derive(Clone, Copy, PartialEq, Eq, Debug)]
pub struct UnknownKind(pub u8);

impl TryFrom<u8> for CellKind {
    type Error = UnknownKind;

    ghost try_from_gives = { Names };

    fn try_from(number: u8) -> Result<Self, UnknownKind> {
        match number {
            1 => Ok(CellKind::Single),
            2 => Ok(CellKind::Pair),
            3 => Ok(CellKind::Four),
            _ => Err(UnknownKind(number)),
        }
    }
}
