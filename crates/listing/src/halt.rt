// Why there is no listing.
ghost use Rattle.std.specs.Prelude.{◌≡◌};
ghost use Rattle.listing.specs.declared.halt.Halt.TheVariants.{Denied, NoMemory};

use denial::Denial;
use std::alloc::AllocError;

#[derive(PartialEq, Eq, Debug, Drop)]
pub(crate) enum Halt {
    Denied(Denial),
    NoMemory(AllocError),
}

// By hand, since the clauses of the callers name what `?` makes of each error.
impl From<Denial> for Halt {
    ghost from_gives = { λ e r. r ≡ Denied e };

    fn from(denial: Denial) -> Halt {
        Halt::Denied(denial)
    }
}

impl From<AllocError> for Halt {
    ghost from_gives = { λ e r. r ≡ NoMemory e };

    fn from(error: AllocError) -> Halt {
        Halt::NoMemory(error)
    }
}
