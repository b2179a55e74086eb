// Releasing the counts.
ghost use Rattle.std.specs.Prelude.{◌≡◌, Some};
ghost use Rattle.history.specs.Contents.{counts_in, form_of};
ghost use Rattle.history.specs.Effects.{Freed};
ghost use Rattle.history.specs.Events.{release};
ghost use Rattle.history.specs.Facts.{nodes};
ghost use Rattle.history.specs.Refusals.{empty_from};
ghost use Rattle.history.specs.Replies.{told};
ghost use Rattle.tree_sheet.specs.Calls.{Carries, Releases};
ghost use Rattle.tree_sheet.specs.Held.{contents};
ghost use Rattle.tree_sheet.specs.Passes.{Lent, Ready, Roomy};

use crate::sheet::Sheet;
use cells::Kind;
use denial::{Denial, Reason};
use history::Action;
use shapes::Shape;

impl<'a, K: Kind> Sheet<'a, K> {
    // The first node that has no count. A `for`: the closure of a `find` changes the sheet that it captures, and would need clauses of
    // its own.
    fn first_empty(&mut self, shape: Shape) -> Option<usize>
        requires { Roomy (nodes (form_of shape)) self.old }
        ensures value { result ≡ empty_from 0 (counts_in K.Kind.row (Some (form_of shape)) (contents self.old)) }
        ensures same { self.new ≡ self.old }
    {
        let limit = shape.entry_limit();
        for v in 0..shape.nodes() {
            if !self.is_filled(v, limit) {
                return Some(v);
            }
        }
        None
    }

    // Fills the first n numerators with X over the shape's denominator, for n nodes, and makes the state released.
    fn settle(&mut self, shape: Shape)
        requires { Ready K.Kind.row (form_of shape) self.old }
        ensures freed { Freed K.Kind.row K.width (form_of shape) (contents self.old) (contents self.new) }
        ensures lent { Lent self.old self.new }
    {
        let _denominator = solver::solve(shape, self.noisy, self.numerators, self.work);
        self.state.advance(Action::Release);
    }

    // Works out the numerators for the counts. The first N work cells may be any cells after it.
    pub fn release(&mut self) -> Result<(), Denial>
        ensures outcome { Releases K.Kind self.old self.new result }
        ensures history { Carries K.Kind self.old self.new release (told result) }
        ensures lent { Lent self.old self.new }
    {
        let shape = self.laid()?;
        if let Some(node) = self.first_empty(shape) {
            return Err(Denial {
                reason: Reason::SomeNodeEmpty,
                // `as`, since no `From` goes from a `usize`
                place: node as u64,
            });
        }
        self.settle(shape);
        Ok(())
    }
}
