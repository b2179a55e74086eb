// Entering a count, and striking it.
ghost use Rattle.std.specs.Prelude.{◌≡◌, ◌<◌, [], ◌∷◌, length, is_some};
ghost use Rattle.algebra.specs.Row.{beyond};
ghost use Rattle.denial.specs.Rules.{Answers, rule_at};
ghost use Rattle.denial.specs.declared.reason.Reason.TheVariants.{EnteredBeyondLimit};
ghost use Rattle.history.specs.Contents.{count_at};
ghost use Rattle.history.specs.Effects.{Entered};
ghost use Rattle.history.specs.Events.{enter, enter_wire, strike};
ghost use Rattle.history.specs.Replies.{told};
ghost use Rattle.tree_sheet.specs.Calls.{Carries, Enters, EntersWire, Strikes};
ghost use Rattle.tree_sheet.specs.Held.{contents};
ghost use Rattle.tree_sheet.specs.Passes.{Lent};

use crate::marks::{EMPTY, FILLED};
use crate::sheet::Sheet;
use cells::{Components, Kind};
use denial::{Denial, Reason};
use history::Action;

// The first component of a cell that is over a limit, up to its sign.
fn first_beyond<K: Kind>(cell: K, limit: u32) -> Option<usize>
    ensures { result ≡ beyond limit (K.Kind.row cell) }
{
    Components::of(cell).position(|x| x.unsigned_abs() > u64::from(limit))
}

// Whether a cell may be entered.
fn check_count<K: Kind>(cell: K, limit: u32) -> Result<(), Denial>
    ensures { Answers (rule_at EnteredBeyondLimit (beyond limit (K.Kind.row cell)) ∷ []) (λ _. Unit {0}) result }
{
    if let Some(i) = first_beyond(cell, limit) {
        return Err(Denial {
            reason: Reason::EnteredBeyondLimit,
            // `as`, since no `From` goes from a `usize`
            place: i as u64,
        });
    }
    Ok(())
}

impl<'a, K: Kind> Sheet<'a, K> {
    // Stores a cell over any earlier one, and marks it.
    fn store(&mut self, node: usize, cell: K)
        requires noisy { node < length self.old.noisy.now }
        requires marks { node < length self.old.marks.now }
        ensures entered { Entered node cell (contents self.old) (contents self.new) }
        ensures lent { Lent self.old self.new }
    {
        self.noisy[node] = cell;
        self.marks[node] = FILLED;
        self.state.advance(Action::Change);
    }

    // Enters a count at a node.
    pub fn enter(&mut self, node: u32, cell: K) -> Result<(), Denial>
        ensures outcome { Enters K.Kind self.old self.new node cell result }
        ensures history { Carries K.Kind self.old self.new (enter node (K.Kind.row cell)) (told result) }
        ensures lent { Lent self.old self.new }
    {
        let shape = self.laid_node(node)?;
        check_count(cell, shape.entry_limit())?;
        self.store(node as usize, cell);
        Ok(())
    }

    // Enters a count at the node of a wire.
    pub fn enter_wire(&mut self, wire: u32, cell: K) -> Result<(), Denial>
        ensures outcome { EntersWire K.Kind self.old self.new wire cell result }
        ensures history { Carries K.Kind self.old self.new (enter_wire wire (K.Kind.row cell)) (told result) }
        ensures lent { Lent self.old self.new }
    {
        let shape = self.laid()?;
        let Some(node) = shape.wire(wire as usize) else {
            return Err(Denial {
                reason: Reason::NoSuchNode,
                place: u64::from(wire),
            });
        };
        check_count(cell, shape.entry_limit())?;
        self.store(node, cell);
        Ok(())
    }

    // Whether a node has a count: it is marked, and its cell is within the entry limit.
    pub(crate) fn is_filled(&mut self, node: usize, limit: u32) -> bool
        requires noisy { node < length self.old.noisy.now }
        requires marks { node < length self.old.marks.now }
        ensures value { result ≡ is_some (count_at K.Kind.row limit (contents self.old) node) }
        ensures same { self.new ≡ self.old }
    {
        self.marks[node] == FILLED && first_beyond(self.noisy[node], limit).is_none()
    }

    // Withdraws the count of a node.
    pub fn strike(&mut self, node: u32) -> Result<(), Denial>
        ensures outcome { Strikes K.Kind self.old self.new node result }
        ensures history { Carries K.Kind self.old self.new (strike node) (told result) }
        ensures lent { Lent self.old self.new }
    {
        let shape = self.laid_node(node)?;
        let at = node as usize;
        if !self.is_filled(at, shape.entry_limit()) {
            return Err(Denial {
                reason: Reason::NodeEmpty,
                place: u64::from(node),
            });
        }
        self.marks[at] = EMPTY;
        self.state.advance(Action::Change);
        Ok(())
    }
}
