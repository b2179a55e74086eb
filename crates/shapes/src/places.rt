// Where the nodes of a shape lie.
ghost use Rattle.std.specs.Prelude.{◌≡◌, ◌-◌, ◌^◌, ◌<◌, ◌≤◌, ◌&&◌, if◌then◌else◌, Some, None, nat_le, nat_lt};
ghost use Rattle.shapes.specs.Tree.{size, child, parent, height, wire, Heights};

use crate::laid::count;
use crate::shape::Shape;

impl Shape {
    // S_k, the nodes of the top k levels.
    #[tactic(auto, using(crate::proofs::Sizes::growth))]
    pub fn size(self, k: usize) -> usize
        requires { k ≤ self.height }
        ensures count { result ≡ size self.fanout k }
        ensures few { result ≤ 1023 }
    {
        count(self.fanout, k)
    }

    // How many nodes there are.
    pub fn nodes(self) -> usize
        ensures count { result ≡ size self.fanout self.height }
        ensures few { result ≤ 1023 }
    {
        self.size(self.height)
    }

    // b^k, the nodes of the level k below the root.
    #[tactic(auto, using(crate::proofs::Sizes::growth))]
    pub fn power(self, k: usize) -> usize
        requires { k < self.height }
        ensures count { result ≡ self.fanout ^ k }
        ensures few { result ≤ 1023 }
    {
        self.fanout.pow(k as u32)
    }

    // Child number j, from 0, of a node, if it has one.
    pub fn child(self, node: usize, j: usize) -> Option<usize>
        ensures { result ≡ (if nat_lt node (size self.fanout (self.height - 1)) && nat_lt j self.fanout then Some (child self.fanout node j) else None) }
    {
        (node < self.size(self.height - 1) && j < self.fanout).then(|| self.fanout * node + 1 + j)
    }

    // The node whose child a node is; the root has none.
    pub fn parent(self, node: usize) -> Option<usize>
        ensures { result ≡ (if nat_le 1 node && nat_lt node (size self.fanout self.height) then Some (parent self.fanout node) else None) }
    {
        let has_parent = (1..self.nodes()).contains(&node);
        has_parent.then(|| (node - 1) / self.fanout)
    }

    // The height of a node, the lowest level being tried first.
    pub fn height_of(self, node: usize) -> Option<usize>
        ensures value { result ≡ (if nat_lt node (size self.fanout self.height) then Some (height self.fanout self.height node) else None) }
        ensures law { Heights self.fanout self.height (height self.fanout self.height) }
    {
        if node >= self.nodes() {
            return None;
        }
        (1..=self.height).find(|&k| node >= self.size(self.height - k))
    }

    // The node of a wire: the wires are the leaves, from left to right.
    pub fn wire(self, j: usize) -> Option<usize>
        ensures { result ≡ (if nat_lt j (self.fanout ^ (self.height - 1)) then Some (wire self.fanout self.height j) else None) }
    {
        (j < self.power(self.height - 1)).then(|| self.size(self.height - 1) + j)
    }
}
