// A kind of cell: what its cells mean, the product by which their distance is measured, and its calls.
ghost use Rattle.std.specs.Prelude.{◌≡◌, ℕ, ◌<◌, ◌≤◌, length, ℤ, slice_set};
ghost use Rattle.algebra.specs.Row.{Row, Product, Within, part, zeros, ◌⊕◌, ◌⊖◌, ◌⊙◌};
ghost use Rattle.denial.specs.Rules.{Answers};
ghost use Rattle.cells.specs.Calls.{carry_limit, component_rules, replace_rules, carry_rules};

use crate::admission::beyond;
use denial::Denial;

pub const CARRY_LIMIT: i64 = 4_000_000_000_000_000_000;

// A cell means a row of `width` whole numbers, its components, each within the carry limit. Every call answers what
// row arithmetic gives, and no call changes a cell.
pub trait Kind: Copy {
    ghost number: { ℕ };

    ghost width: { ℕ };

    ghost row: { Self → Row };

    ghost product: { Row → Row → ℤ };

    // A byte and no name, since a kind may be one that nobody has named yet.
    fn number() -> u8
        ensures { result ≡ number };

    fn width() -> usize
        ensures { result ≡ width };

    fn zero() -> Self
        ensures { row result ≡ zeros width };

    fn component(self, i: usize) -> Result<i64, Denial>
        ensures { Answers (component_rules width i) (λ x. x ≡ part (row self) i) result };

    fn set_component(self, i: usize, x: i64) -> Result<Self, Denial>
        ensures { Answers (replace_rules width i x) (λ c. row c ≡ slice_set (row self) i x) result };

    // Three loops that differ in the operation. One method that takes a closure would be a method with a bound of its own, and what is
    // left to its trait by a kind that holds a function pointer could then not be stated. By number, since a cell takes its components so.
    fn sum(self, other: Self) -> Result<Self, Denial>
        ensures { Answers (carry_rules (row self ⊕ row other)) (λ c. row c ≡ row self ⊕ row other) result }
    {
        let mut answer = self;
        for i in 0..Self::width() {
            let total = self.component(i)? + other.component(i)?;
            answer = answer.set_component(i, total)?;
        }
        Ok(answer)
    }

    fn difference(self, other: Self) -> Result<Self, Denial>
        ensures { Answers (carry_rules (row self ⊖ row other)) (λ c. row c ≡ row self ⊖ row other) result }
    {
        let mut answer = self;
        for i in 0..Self::width() {
            let rest = self.component(i)? - other.component(i)?;
            answer = answer.set_component(i, rest)?;
        }
        Ok(answer)
    }

    fn multiple(self, by: i64) -> Result<Self, Denial>
        ensures { Answers (carry_rules (by ⊙ row self)) (λ c. row c ≡ by ⊙ row self) result }
    {
        let mut answer = self;
        for i in 0..Self::width() {
            let Some(times) = by.checked_mul(self.component(i)?) else {
                return Err(beyond(i));
            };
            answer = answer.set_component(i, times)?;
        }
        Ok(answer)
    }

    ghost numbered: { number < 256 };

    ghost narrow: { (1 ≤ width) × (width ≤ 8) };

    ghost sized: { (c : Self) → length (row c) ≡ width };

    ghost held: { (c : Self) → Within carry_limit (row c) };

    ghost lawful: { Product width product };
}
