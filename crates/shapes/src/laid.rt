// Which shapes there are.
ghost use Rattle.std.specs.Prelude.{◌≡◌, ◌≤◌};
ghost use Rattle.denial.specs.Rules.{Answers};
ghost use Rattle.shapes.specs.Laid.{shape_rules, entry_limit};
ghost use Rattle.shapes.specs.Tree.{size};

use crate::shape::Shape;
use denial::{Denial, Reason};

const MOST_NODES: usize = 1023;

const ENTRY_LIMIT: u32 = 1_000_000;

// S_k, the nodes of a complete tree of that fan-out and of height k.
#[tactic(auto, using(crate::proofs::Sizes::growth))]
pub(crate) fn count(fanout: usize, k: usize) -> usize
    requires { (fanout ≤ 16) × (k ≤ 10) }
    ensures { result ≡ size fanout k }
{
    let mut nodes = 0;
    for _ in 0..k {
        nodes = 1 + fanout * nodes;
    }
    nodes
}

impl Shape {
    // The shape of that fan-out and height, or why there is none.
    pub fn new(fanout: u32, height: u32) -> Result<Self, Denial>
        ensures { Answers (shape_rules fanout height) (λ s. (s.fanout ≡ fanout) × (s.height ≡ height)) result }
    {
        if !(2..=16).contains(&fanout) {
            return Err(Denial {
                reason: Reason::FanoutRange,
                place: u64::from(fanout),
            });
        }
        if !(1..=10).contains(&height) {
            return Err(Denial {
                reason: Reason::HeightRange,
                place: u64::from(height),
            });
        }
        let fanout = fanout as usize;
        let height = height as usize;
        if count(fanout, height) > MOST_NODES {
            return Err(Denial {
                reason: Reason::TooManyNodes,
                place: 0,
            });
        }
        Ok(Shape { fanout, height })
    }

    // The largest count that is taken, up to its sign.
    pub fn entry_limit(self) -> u32
        ensures { result ≡ entry_limit self.fanout self.height }
    {
        ENTRY_LIMIT
    }
}
