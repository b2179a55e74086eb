// The state of a tree sheet, and what accepted calls make of it.
ghost use Rattle.std.specs.Prelude.{◌≡◌};
ghost use Rattle.history.specs.States.{next};

use shapes::Shape;

#[derive(Clone, Copy, PartialEq, Eq, Debug)]
pub enum State {
    Unlaid,
    Filling(Shape),
    Released(Shape),
}

// What an accepted call does: it lays a shape, changes a count, or releases.
#[derive(Clone, Copy, PartialEq, Eq, Debug)]
pub enum Action {
    Lay(Shape),
    Change,
    Release,
}

impl State {
    // Only a lay takes a sheet out of the state unlaid. A change of a count withdraws a release. (The state matches itself and
    // the action together, as the project has it.)
    pub fn advance(&mut self, action: Action)
        ensures { self.new ≡ next self.old action }
    {
        *self = match (*self, action) {
            (_, Action::Lay(shape)) => Self::Filling(shape),
            (Self::Unlaid, _) => Self::Unlaid,
            (Self::Filling(laid) | Self::Released(laid), Action::Change) => Self::Filling(laid),
            (Self::Filling(laid) | Self::Released(laid), Action::Release) => Self::Released(laid),
        };
    }
}
