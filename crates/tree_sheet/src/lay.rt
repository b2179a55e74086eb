// Laying a shape.
ghost use Rattle.history.specs.Events.{lay};
ghost use Rattle.history.specs.Replies.{told};
ghost use Rattle.tree_sheet.specs.Calls.{Carries, Lays};
ghost use Rattle.tree_sheet.specs.Passes.{Lent};

use crate::marks::{EMPTY, mark_all};
use crate::sheet::Sheet;
use cells::Kind;
use denial::Denial;
use history::Action;
use shapes::Shape;

impl<'a, K: Kind> Sheet<'a, K> {
    // Lays a shape, in any state, and empties all its nodes.
    pub fn lay(&mut self, fanout: u32, height: u32) -> Result<(), Denial>
        ensures outcome { Lays K.Kind self.old self.new fanout height result }
        ensures history { Carries K.Kind self.old self.new (lay fanout height) (told result) }
        ensures lent { Lent self.old self.new }
    {
        let shape = Shape::new(fanout, height)?;
        let nodes = shape.nodes();
        self.check_room(nodes)?;
        mark_all(self.marks, nodes, EMPTY);
        self.state.advance(Action::Lay(shape));
        Ok(())
    }
}
