// Whether a number may stand at a component.
ghost use Rattle.std.specs.Prelude.{◌≡◌, ◌<◌, ◌≤◌, unsigned_abs};
ghost use Rattle.denial.specs.Rules.{Answers, denied};
ghost use Rattle.denial.specs.declared.reason.Reason.TheVariants.{BeyondCarryLimit, NoSuchComponent};
ghost use Rattle.cells.specs.Calls.{carry_limit, replace_rules};

use crate::kind::CARRY_LIMIT;
use denial::{Denial, Reason};

// The denial of a component that the cell does not have.
pub(crate) fn no_component(i: usize) -> Denial
    ensures { result ≡ denied NoSuchComponent i }
{
    Denial {
        reason: Reason::NoSuchComponent,
        place: i as u64,
    }
}

// The denial of a component that is beyond the carry limit.
pub(crate) fn beyond(i: usize) -> Denial
    ensures { result ≡ denied BeyondCarryLimit i }
{
    Denial {
        reason: Reason::BeyondCarryLimit,
        place: i as u64,
    }
}

pub(crate) fn admit(width: usize, i: usize, x: i64) -> Result<(), Denial>
    ensures { Answers (replace_rules width i x) (λ _. (i < width) × (unsigned_abs x ≤ carry_limit)) result }
{
    if i >= width {
        return Err(no_component(i));
    }
    if x > CARRY_LIMIT || x < -CARRY_LIMIT {
        return Err(beyond(i));
    }
    Ok(())
}
