// A kind's arithmetic where the answer is within the carry limit, so that no call is denied. (Three functions, since one would
// have to be told at each call which row it gives.)
#![tactic(auto, using(crate::proofs::Never::held))]

ghost use Rattle.std.specs.Prelude.{◌≡◌, ◌^◌, ◌<◌, pos};
ghost use Rattle.algebra.specs.Row.{Within, ◌⊕◌, ◌⊖◌, ◌⊙◌};
ghost use Rattle.cells.specs.Calls.{carry_limit};

use cells::Kind;

pub(crate) fn plus<K: Kind>(a: K, b: K) -> K
    requires { Within carry_limit (K.Kind.row a ⊕ K.Kind.row b) }
    ensures { K.Kind.row result ≡ K.Kind.row a ⊕ K.Kind.row b }
{
    a.sum(b).unwrap()
}

pub(crate) fn minus<K: Kind>(a: K, b: K) -> K
    requires { Within carry_limit (K.Kind.row a ⊖ K.Kind.row b) }
    ensures { K.Kind.row result ≡ K.Kind.row a ⊖ K.Kind.row b }
{
    a.difference(b).unwrap()
}

pub(crate) fn times<K: Kind>(by: u64, a: K) -> K
    requires small { by < 2 ^ 63 }
    requires within { Within carry_limit (pos by ⊙ K.Kind.row a) }
    ensures { K.Kind.row result ≡ pos by ⊙ K.Kind.row a }
{
    a.multiple(by as i64).unwrap()
}
