// Counts on a tree, and Z at each of its nodes.
ghost use Rattle.std.specs.Prelude.{◌≤◌, length};
ghost use Rattle.solver.specs.Passes.{nodes, Raised};

use crate::counts::Counts;
use cells::Kind;

#[derive(Drop)]
pub(crate) struct Gathered<'a, K: Kind> {
    pub(crate) counts: Counts<'a, K>,
    pub(crate) work: &'a [K],
    ghost worked: { nodes counts ≤ length work.now },
    ghost raised: { Raised counts 0 work.now },
}
