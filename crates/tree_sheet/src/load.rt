// Loading a noisy table.
ghost use Rattle.history.specs.Events.{load};
ghost use Rattle.history.specs.Replies.{told};
ghost use Rattle.tree_sheet.specs.Calls.{Carries, Loads};
ghost use Rattle.tree_sheet.specs.Passes.{Lent};

use crate::marks::{FILLED, mark_all};
use crate::sheet::Sheet;
use cells::Kind;
use denial::Denial;
use formats::load_table;
use history::Action;

impl<'a, K: Kind> Sheet<'a, K> {
    // Enters all the counts of a table of the laid shape, or none.
    pub fn load(&mut self, table: &[u8]) -> Result<(), Denial>
        ensures outcome { Loads K.Kind self.old self.new table.now result }
        ensures history { Carries K.Kind self.old self.new (load table.now) (told result) }
        ensures lent { Lent self.old self.new }
    {
        let shape = self.laid()?;
        load_table(table, shape, self.noisy)?;
        mark_all(self.marks, shape.nodes(), FILLED);
        self.state.advance(Action::Change);
        Ok(())
    }
}
