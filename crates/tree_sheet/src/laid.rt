// What every call asks first: whether a shape is laid, whether it has the node, and whether its counts are released.
ghost use Rattle.std.specs.Prelude.{◌≡◌, ◌<◌, [], ◌∷◌, Some};
ghost use Rattle.denial.specs.Rules.{Answers};
ghost use Rattle.history.specs.Contents.{facts, form_of, is_released, laid};
ghost use Rattle.history.specs.Facts.{nodes};
ghost use Rattle.history.specs.Refusals.{laid_rules, node_rules, released_rule, released_rules};
ghost use Rattle.tree_sheet.specs.Held.{contents};

use crate::sheet::Sheet;
use cells::Kind;
use denial::{Denial, Reason};
use history::State;
use shapes::Shape;

impl<'a, K: Kind> Sheet<'a, K> {
    // The laid shape.
    pub(crate) fn laid(&mut self) -> Result<Shape, Denial>
        ensures answer { Answers (laid_rules (facts K.Kind.row (contents self.old))) (λ s. laid (contents self.old) ≡ Some (form_of s)) result }
        ensures same { self.new ≡ self.old }
    {
        if let State::Filling(shape) | State::Released(shape) = self.state
            && self.has_room(shape.nodes())
        {
            return Ok(shape);
        }
        Err(Denial {
            reason: Reason::Unlaid,
            place: 0,
        })
    }

    // The laid shape, where it has this node.
    pub(crate) fn laid_node(&mut self, node: u32) -> Result<Shape, Denial>
        ensures answer { Answers (node_rules (facts K.Kind.row (contents self.old)) node) (λ s. (laid (contents self.old) ≡ Some (form_of s)) × (node < nodes (form_of s))) result }
        ensures same { self.new ≡ self.old }
    {
        let shape = self.laid()?;
        if node as usize >= shape.nodes() {
            return Err(Denial {
                reason: Reason::NoSuchNode,
                place: u64::from(node),
            });
        }
        Ok(shape)
    }

    pub(crate) fn is_released(&mut self) -> bool
        ensures value { result ≡ is_released self.old.state }
        ensures same { self.new ≡ self.old }
    {
        matches!(self.state, State::Released(_))
    }

    // Whether the counts are released.
    pub(crate) fn check_released(&mut self) -> Result<(), Denial>
        ensures answer { Answers (released_rule (facts K.Kind.row (contents self.old)) ∷ []) (λ _. Unit {0}) result }
        ensures same { self.new ≡ self.old }
    {
        if !self.is_released() {
            return Err(Denial {
                reason: Reason::NotReleased,
                place: 0,
            });
        }
        Ok(())
    }

    // The laid shape, where its counts are released.
    pub(crate) fn released(&mut self) -> Result<Shape, Denial>
        ensures answer { Answers (released_rules (facts K.Kind.row (contents self.old))) (λ s. laid (contents self.old) ≡ Some (form_of s)) result }
        ensures same { self.new ≡ self.old }
    {
        let shape = self.laid()?;
        self.check_released()?;
        Ok(shape)
    }
}
