// Counts on a tree: a cell for each node, within the entry limit.
ghost use Rattle.std.specs.Prelude.{◌≤◌, length};
ghost use Rattle.shapes.specs.Tree.{size};
ghost use Rattle.solver.specs.Entries.{Entries};

use cells::Kind;
use shapes::Shape;

#[derive(Drop)]
pub(crate) struct Counts<'a, K: Kind> {
    pub(crate) shape: Shape,
    pub(crate) cells: &'a [K],
    ghost whole: { size shape.fanout shape.height ≤ length cells.now },
    ghost small: { Entries K.Kind.row shape.fanout shape.height cells.now },
}

impl<K: Kind> Counts<'_, K> {
    ghost use Rattle.std.specs.Prelude.{◌≡◌, suc};
    ghost use Rattle.solver.specs.Passes.{nodes, above};

    // The first node of height k + 1, and the first node after them. That there is such a height stays a clause of each
    // call for a level: a type for one bounded number would be made and taken apart at every turn.
    pub(crate) fn level(&self, k: usize) -> (usize, usize)
        requires { suc k ≤ self.now.shape.height }
        ensures first { result.0 ≡ above self.now (suc k) }
        ensures end { result.1 ≡ above self.now k }
        ensures rising { result.0 ≤ result.1 }
        ensures inside { result.1 ≤ nodes self.now }
    {
        let above = self.shape.height - k;
        (self.shape.size(above - 1), self.shape.size(above))
    }
}
