// A denial: its reason, and the place that it concerns.
ghost use Rattle.std.specs.Prelude.{Some};
ghost use Rattle.denial.specs.Text.{denial_text};

use crate::reason::Reason;
use std::error::Error;
use std::fmt;

#[derive(Clone, Copy, PartialEq, Eq, Debug)]
pub struct Denial {
    pub reason: Reason,
    pub place: u64,
}

impl fmt::Display for Denial {
    ghost output = { λ e. Some (denial_text e) };

    fn fmt<W: fmt::Write>(&self, f: &mut fmt::Formatter<W>) -> fmt::Result {
        let number = self.reason.number();
        let place = self.place;
        write!(f, "refused {number} {place}")
    }
}

impl Error for Denial {}
