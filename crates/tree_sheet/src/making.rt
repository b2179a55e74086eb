// A new tree sheet.
ghost use Rattle.std.specs.Prelude.{◌≡◌, []};
ghost use Rattle.history.specs.Events.{Represents};
ghost use Rattle.history.specs.declared.state.State.TheVariants.{Unlaid};
ghost use Rattle.tree_sheet.specs.Held.{contents};

use crate::sheet::Sheet;
use cells::Kind;
use history::State;

impl<'a, K: Kind> Sheet<'a, K> {
    // A sheet begins unlaid, whatever its slices hold.
    pub fn new(
        noisy: &'a mut [K],
        marks: &'a mut [u8],
        numerators: &'a mut [K],
        work: &'a mut [K],
    ) -> Self
        ensures holds { contents result ≡ record { noisy = noisy.old; marks = marks.old; numerators = numerators.old; work = work.old; state = Unlaid } }
        ensures history { Represents K.Kind.row K.width [] (contents result) }
        ensures lent { (result.noisy.ghost_name ≡ noisy.entry.ghost_name) × (result.marks.ghost_name ≡ marks.entry.ghost_name) × (result.numerators.ghost_name ≡ numerators.entry.ghost_name) × (result.work.ghost_name ≡ work.entry.ghost_name) }
    {
        Sheet {
            noisy,
            marks,
            numerators,
            work,
            state: State::Unlaid,
        }
    }
}
