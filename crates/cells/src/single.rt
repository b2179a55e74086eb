// A single number. (Each kind has a field for each component and no array, as the project has it.)
ghost use Rattle.std.specs.Prelude.{◌≤◌, [], ◌∷◌, unsigned_abs};
ghost use Rattle.cells.specs.Calls.{carry_limit};
ghost use Rattle.cells.specs.Products.{single};
ghost use Rattle.cells.specs.ProductLaws.{single-laws};
ghost use Rattle.std.proofs.Common.{rules};

use crate::admission::{admit, no_component};
use crate::cell_kind::CellKind;
use crate::kind::Kind;
use denial::Denial;

#[derive(Clone, Copy, PartialEq, Eq, Debug)]
pub struct Single {
    value: i64,
    ghost held: { unsigned_abs value ≤ carry_limit },
}

impl Kind for Single {
    ghost number = { 1 };

    ghost width = { 1 };

    ghost row = { λ c. c.value ∷ [] };

    ghost product = { single };

    ghost numbered = { Prim.search rules };

    ghost narrow = { Prim.search rules };

    ghost sized = { Prim.search rules };

    ghost held = { Prim.search rules };

    ghost lawful = { single-laws };

    fn number() -> u8 {
        CellKind::Single as u8
    }

    fn width() -> usize {
        1
    }

    fn zero() -> Self {
        Single { value: 0 }
    }

    fn component(self, i: usize) -> Result<i64, Denial> {
        match i {
            0 => Ok(self.value),
            _ => Err(no_component(i)),
        }
    }

    fn set_component(self, i: usize, x: i64) -> Result<Self, Denial> {
        admit(1, i, x)?;
        Ok(Single { value: x })
    }
}
