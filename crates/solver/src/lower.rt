// Downwards: C at every node, the root first.
ghost use Rattle.std.specs.Prelude.{◌≡◌, suc, ◌-◌, ◌≤◌, length, drop};
ghost use Rattle.solver.specs.Passes.{nodes, above, Lowered};

use crate::gathered::Gathered;
use crate::node::{handed, spread};
use cells::Kind;

impl<K: Kind> Gathered<'_, K> {
    // C at the level of height k, where C stands at the levels above: each parent hands the same cell to all its children.
    fn lower_level(&self, k: usize, numerators: &mut [K])
        requires low { 1 ≤ k }
        requires high { suc k ≤ self.now.counts.shape.height }
        requires room { nodes self.now.counts ≤ length numerators.old }
        requires above { Lowered self.now.counts (above self.now.counts k) numerators.old }
        ensures lowered { Lowered self.now.counts (above self.now.counts (k - 1)) numerators.new }
        ensures past { drop (nodes self.now.counts) numerators.new ≡ drop (nodes self.now.counts) numerators.old }
    {
        let fanout = self.counts.shape.fanout;
        let fewer = self.counts.shape.size(k) as u64;
        let nodes = self.counts.shape.size(k + 1) as u64;
        let factor = self.counts.shape.denominator() / (fewer * nodes);
        let (first, end) = self.counts.level(k);
        // By number, which says where a node's children lie.
        for u in first..end {
            let cell = handed(
                self.counts.cells[u],
                self.work[u],
                numerators[u],
                nodes,
                factor,
            );
            let child = fanout * u + 1;
            spread(&mut numerators[child..child + fanout], cell);
        }
    }

    // C at every node.
    pub(crate) fn lower(&self, numerators: &mut [K])
        requires room { nodes self.now.counts ≤ length numerators.old }
        ensures lowered { Lowered self.now.counts (nodes self.now.counts) numerators.new }
        ensures past { drop (nodes self.now.counts) numerators.new ≡ drop (nodes self.now.counts) numerators.old }
    {
        numerators[0] = K::zero();
        for k in (1..self.counts.shape.height).rev() {
            self.lower_level(k, numerators);
        }
    }
}
