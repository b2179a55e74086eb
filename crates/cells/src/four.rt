// Four classes, a number for each. (Each kind has a field for each component and no array, as the project has it.)
ghost use Rattle.std.specs.Prelude.{◌≤◌, [], ◌∷◌, unsigned_abs};
ghost use Rattle.cells.specs.Calls.{carry_limit};
ghost use Rattle.cells.specs.Products.{four};
ghost use Rattle.cells.specs.ProductLaws.{four-laws};
ghost use Rattle.std.proofs.Common.{rules};

use crate::admission::{admit, no_component};
use crate::cell_kind::CellKind;
use crate::kind::Kind;
use denial::Denial;

#[derive(Clone, Copy, PartialEq, Eq, Debug)]
pub struct Four {
    first: i64,
    second: i64,
    third: i64,
    fourth: i64,
    ghost held: { (unsigned_abs first ≤ carry_limit) × (unsigned_abs second ≤ carry_limit) × (unsigned_abs third ≤ carry_limit) × (unsigned_abs fourth ≤ carry_limit) },
}

impl Kind for Four {
    ghost number = { 3 };

    ghost width = { 4 };

    ghost row = { λ c. c.first ∷ c.second ∷ c.third ∷ c.fourth ∷ [] };

    ghost product = { four };

    ghost numbered = { Prim.search rules };

    ghost narrow = { Prim.search rules };

    ghost sized = { Prim.search rules };

    ghost held = { Prim.search rules };

    ghost lawful = { four-laws };

    fn number() -> u8 {
        CellKind::Four as u8
    }

    fn width() -> usize {
        4
    }

    fn zero() -> Self {
        Four {
            first: 0,
            second: 0,
            third: 0,
            fourth: 0,
        }
    }

    fn component(self, i: usize) -> Result<i64, Denial> {
        match i {
            0 => Ok(self.first),
            1 => Ok(self.second),
            2 => Ok(self.third),
            3 => Ok(self.fourth),
            _ => Err(no_component(i)),
        }
    }

    fn set_component(self, i: usize, x: i64) -> Result<Self, Denial> {
        admit(4, i, x)?;
        let mut cell = self;
        match i {
            0 => cell.first = x,
            1 => cell.second = x,
            2 => cell.third = x,
            _ => cell.fourth = x,
        }
        Ok(cell)
    }
}
