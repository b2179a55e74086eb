// X at every node, in the place of C.
ghost use Rattle.std.specs.Prelude.{◌≡◌, suc, ◌≤◌, length, drop};
ghost use Rattle.solver.specs.Passes.{nodes, above, Lowered, Finished};

use crate::gathered::Gathered;
use crate::node::settled;
use cells::Kind;

// That the numerators have room stays a clause: they are lent apart, for writing, so that a contract speaks of one slice.
impl<K: Kind> Gathered<'_, K> {
    // X at the level of height k + 1, where X stands at the levels above.
    fn finish_level(&self, k: usize, numerators: &mut [K])
        requires level { suc k ≤ self.now.counts.shape.height }
        requires room { nodes self.now.counts ≤ length numerators.old }
        requires above { Finished self.now.counts (above self.now.counts (suc k)) numerators.old }
        ensures finished { Finished self.now.counts (above self.now.counts k) numerators.new }
        ensures past { drop (nodes self.now.counts) numerators.new ≡ drop (nodes self.now.counts) numerators.old }
    {
        let factor = self.counts.shape.denominator() / self.counts.shape.size(k + 1) as u64;
        let power = self.counts.shape.power(k) as u64;
        let (first, end) = self.counts.level(k);
        // By number: a proof knows nothing of cells that were written through a zip of iter_mut, and to enumerate them counts too.
        for v in first..end {
            numerators[v] = settled(self.work[v], numerators[v], factor, power);
        }
    }

    // X at every node.
    pub(crate) fn finish(&self, numerators: &mut [K])
        requires room { nodes self.now.counts ≤ length numerators.old }
        requires lowered { Lowered self.now.counts (nodes self.now.counts) numerators.old }
        ensures finished { Finished self.now.counts (nodes self.now.counts) numerators.new }
        ensures past { drop (nodes self.now.counts) numerators.new ≡ drop (nodes self.now.counts) numerators.old }
    {
        for k in (0..self.counts.shape.height).rev() {
            self.finish_level(k, numerators);
        }
    }
}
