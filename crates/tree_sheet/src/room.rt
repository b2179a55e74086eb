// Whether the slices have room for the nodes of a shape.
ghost use Rattle.std.specs.Prelude.{◌≡◌, ◌≤◌, [], ◌∷◌, length, nat_lt};
ghost use Rattle.denial.specs.Rules.{Answers, rule};
ghost use Rattle.denial.specs.declared.reason.Reason.TheVariants.{SliceTooShort};
ghost use Rattle.history.specs.Contents.{rooms};
ghost use Rattle.history.specs.Facts.{roomy};
ghost use Rattle.history.specs.Refusals.{room_rules};
ghost use Rattle.tree_sheet.specs.Held.{contents};
ghost use Rattle.tree_sheet.specs.Slices.{number};

use crate::sheet::Sheet;
use cells::Kind;
use denial::{Denial, Reason};

// The slices of a sheet, each with its number in a denial.
#[derive(Clone, Copy, PartialEq, Eq, Debug)]
enum Slice {
    Noisy = 1,
    Marks = 2,
    Numerators = 3,
    Work = 4,
}

// Whether a slice of this length has room for n nodes.
fn check_length(slice: Slice, length: usize, n: usize) -> Result<(), Denial>
    ensures { Answers (rule (nat_lt length n) SliceTooShort (number slice) ∷ []) (λ _. n ≤ length) result }
{
    if length < n {
        return Err(Denial {
            reason: Reason::SliceTooShort,
            place: slice as u64,
        });
    }
    Ok(())
}

impl<'a, K: Kind> Sheet<'a, K> {
    // Whether each slice has room for n nodes; the first that has not is denied.
    pub(crate) fn check_room(&mut self, n: usize) -> Result<(), Denial>
        ensures answer { Answers (room_rules n (rooms (contents self.old))) (λ _. n ≤ length self.old.marks.now) result }
        ensures same { self.new ≡ self.old }
    {
        check_length(Slice::Noisy, self.noisy.len(), n)?;
        check_length(Slice::Marks, self.marks.len(), n)?;
        check_length(Slice::Numerators, self.numerators.len(), n)?;
        check_length(Slice::Work, self.work.len(), n)
    }

    pub(crate) fn has_room(&mut self, n: usize) -> bool
        ensures value { result ≡ roomy n (rooms (contents self.old)) }
        ensures same { self.new ≡ self.old }
    {
        self.check_room(n).is_ok()
    }
}
