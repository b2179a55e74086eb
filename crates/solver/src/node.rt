// What is worked out at one node, and for its children.
ghost use Rattle.std.specs.Prelude.{◌≡◌, ℕ, ◌^◌, ◌<◌, ◌≤◌, length, pos, replicate};
ghost use Rattle.algebra.specs.Row.{Within, row_at, ◌⊕◌, ◌⊖◌, ◌⊙◌};
ghost use Rattle.algebra.specs.Sum.{sum_rows};
ghost use Rattle.cells.specs.Calls.{carry_limit};
ghost use Rattle.solver.specs.Steps.{Lifts, Hands, Settles};

use crate::arith::{minus, plus, times};
use cells::Kind;

// The sum of some cells.
pub(crate) fn gather<K: Kind>(cells: &[K]) -> K
    requires { (m : ℕ) → m ≤ length cells.now → Within carry_limit (sum_rows K.width m (row_at K.Kind.row cells.now)) }
    ensures { K.Kind.row result ≡ sum_rows K.width (length cells.now) (row_at K.Kind.row cells.now) }
{
    let mut sum = K::zero();
    for cell in cells {
        sum = plus(sum, *cell);
    }
    sum
}

// The same cell at every place. (`fill` asks that a clone of the cell cannot fail, which a kind does not say, and with `fill_with`
// the proof did not close.)
pub(crate) fn spread<K: Kind>(cells: &mut [K], cell: K)
    ensures { cells.new ≡ replicate (length cells.old) cell }
{
    for slot in cells {
        *slot = cell;
    }
}

// Z at a parent: `power` times its own count, and the sum of its children's Z.
pub(crate) fn lifted<K: Kind>(own: K, power: u64, kids: K) -> K
    requires small { power < 2 ^ 63 }
    requires lifts { Lifts carry_limit power (K.Kind.row own) (K.Kind.row kids) }
    ensures { K.Kind.row result ≡ pos power ⊙ K.Kind.row own ⊕ K.Kind.row kids }
{
    plus(times(power, own), kids)
}

// C at the children of a node, of its own count, its Z and its C.
pub(crate) fn handed<K: Kind>(own: K, gathered: K, carried: K, nodes: u64, factor: u64) -> K
    requires few { nodes < 2 ^ 63 }
    requires small { factor < 2 ^ 63 }
    requires hands { Hands carry_limit nodes factor (K.Kind.row own) (K.Kind.row gathered) (K.Kind.row carried) }
    ensures { K.Kind.row result ≡ K.Kind.row carried ⊕ pos factor ⊙ (pos nodes ⊙ K.Kind.row own ⊖ K.Kind.row gathered) }
{
    let rest = minus(times(nodes, own), gathered);
    plus(carried, times(factor, rest))
}

// X at a node, of its Z and its C.
pub(crate) fn settled<K: Kind>(gathered: K, carried: K, factor: u64, power: u64) -> K
    requires small { factor < 2 ^ 63 }
    requires low { power < 2 ^ 63 }
    requires settles { Settles carry_limit factor power (K.Kind.row gathered) (K.Kind.row carried) }
    ensures { K.Kind.row result ≡ pos factor ⊙ K.Kind.row gathered ⊕ pos power ⊙ K.Kind.row carried }
{
    plus(times(factor, gathered), times(power, carried))
}
