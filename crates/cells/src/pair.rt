// A pair: what came in, and what went out. (Each kind has a field for each component and no array, as the project has it.)
ghost use Rattle.std.specs.Prelude.{◌≤◌, [], ◌∷◌, unsigned_abs};
ghost use Rattle.cells.specs.Calls.{carry_limit};
ghost use Rattle.cells.specs.Products.{pair};
ghost use Rattle.cells.specs.ProductLaws.{pair-laws};
ghost use Rattle.std.proofs.Common.{rules};

use crate::admission::{admit, no_component};
use crate::cell_kind::CellKind;
use crate::kind::Kind;
use denial::Denial;

#[derive(Clone, Copy, PartialEq, Eq, Debug)]
pub struct Pair {
    inward: i64,
    outward: i64,
    ghost held: { (unsigned_abs inward ≤ carry_limit) × (unsigned_abs outward ≤ carry_limit) },
}

impl Kind for Pair {
    ghost number = { 2 };

    ghost width = { 2 };

    ghost row = { λ c. c.inward ∷ c.outward ∷ [] };

    ghost product = { pair };

    ghost numbered = { Prim.search rules };

    ghost narrow = { Prim.search rules };

    ghost sized = { Prim.search rules };

    ghost held = { Prim.search rules };

    ghost lawful = { pair-laws };

    fn number() -> u8 {
        CellKind::Pair as u8
    }

    fn width() -> usize {
        2
    }

    fn zero() -> Self {
        Pair {
            inward: 0,
            outward: 0,
        }
    }

    fn component(self, i: usize) -> Result<i64, Denial> {
        match i {
            0 => Ok(self.inward),
            1 => Ok(self.outward),
            _ => Err(no_component(i)),
        }
    }

    fn set_component(self, i: usize, x: i64) -> Result<Self, Denial> {
        admit(2, i, x)?;
        let mut cell = self;
        match i {
            0 => cell.inward = x,
            _ => cell.outward = x,
        }
        Ok(cell)
    }
}
