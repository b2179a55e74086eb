// The solver's call.
ghost use Rattle.std.specs.Prelude.{◌≡◌, ℕ, ◌<◌, ◌≤◌, length, drop};
ghost use Rattle.algebra.specs.Row.{row_at, Within};
ghost use Rattle.inference.specs.Formulas.{X};
ghost use Rattle.inference.specs.Nearest.{Nearest};
ghost use Rattle.shapes.specs.Denominator.{Denominator};
ghost use Rattle.shapes.specs.Laid.{entry_limit};
ghost use Rattle.shapes.specs.Tree.{size};

use crate::counts::Counts;
use crate::gathered::Gathered;
use cells::Kind;
use shapes::Shape;

// Fills the first N numerators with X over the denominator that it answers, for N nodes: the table that adds up and lies strictly
// nearer to the noisy cells than any other. The first N work cells may be any cells after it; all other cells stay as they are.
pub fn solve<K: Kind>(shape: Shape, noisy: &mut [K], numerators: &mut [K], work: &mut [K]) -> u64
    requires noisy { size shape.fanout shape.height ≤ length noisy.old }
    requires numerators { size shape.fanout shape.height ≤ length numerators.old }
    requires work { size shape.fanout shape.height ≤ length work.old }
    requires counts { (v : ℕ) → v < size shape.fanout shape.height → Within (entry_limit shape.fanout shape.height) (row_at K.Kind.row noisy.old v) }
    ensures denominator { Denominator shape.fanout shape.height result }
    ensures solved { (v : ℕ) → v < size shape.fanout shape.height → row_at K.Kind.row numerators.new v ≡ X K.width shape.fanout shape.height result (row_at K.Kind.row noisy.old) v }
    ensures nearest { Nearest K.width shape.fanout shape.height result K.product (row_at K.Kind.row noisy.old) (row_at K.Kind.row numerators.new) }
    ensures past { drop (size shape.fanout shape.height) numerators.new ≡ drop (size shape.fanout shape.height) numerators.old }
    ensures counted { noisy.new ≡ noisy.old }
    ensures scratch { drop (size shape.fanout shape.height) work.new ≡ drop (size shape.fanout shape.height) work.old }
{
    let counts = Counts {
        shape,
        cells: noisy,
    };
    counts.raise(work);
    let gathered = Gathered { counts, work };
    gathered.lower(numerators);
    gathered.finish(numerators);
    shape.denominator()
}
