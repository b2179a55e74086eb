// Upwards: Z at every node, the lowest level first.
ghost use Rattle.std.specs.Prelude.{◌≡◌, suc, ◌≤◌, length, drop};
ghost use Rattle.solver.specs.Passes.{nodes, above, Raised};

use crate::counts::Counts;
use crate::node::{gather, lifted};
use cells::Kind;

// That the work cells have room stays a clause: they are lent apart, for writing, so that a contract speaks of one slice.
impl<K: Kind> Counts<'_, K> {
    // Z at the leaves, which is their own count.
    fn raise_leaves(&self, work: &mut [K])
        requires { nodes self.now ≤ length work.old }
        ensures raised { Raised self.now (above self.now 1) work.new }
        ensures past { drop (nodes self.now) work.new ≡ drop (nodes self.now) work.old }
    {
        let (first, end) = self.level(0);
        work[first..end].copy_from_slice(&self.cells[first..end]);
    }

    // Z at the level of height k + 1, where Z stands at the levels below.
    fn raise_level(&self, k: usize, work: &mut [K])
        requires low { 1 ≤ k }
        requires high { suc k ≤ self.now.shape.height }
        requires room { nodes self.now ≤ length work.old }
        requires below { Raised self.now (above self.now k) work.old }
        ensures raised { Raised self.now (above self.now (suc k)) work.new }
        ensures past { drop (nodes self.now) work.new ≡ drop (nodes self.now) work.old }
    {
        let fanout = self.shape.fanout;
        let power = self.shape.power(k) as u64;
        let (first, end) = self.level(k);
        // By number, which says where a node's children lie.
        for u in (first..end).rev() {
            let child = fanout * u + 1;
            let kids = gather(&work[child..child + fanout]);
            work[u] = lifted(self.cells[u], power, kids);
        }
    }

    // Z at every node.
    pub(crate) fn raise(&self, work: &mut [K])
        requires { nodes self.now ≤ length work.old }
        ensures raised { Raised self.now 0 work.new }
        ensures past { drop (nodes self.now) work.new ≡ drop (nodes self.now) work.old }
    {
        self.raise_leaves(work);
        for k in 1..self.shape.height {
            self.raise_level(k, work);
        }
    }
}
