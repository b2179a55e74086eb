// Loading noisy tables onto a shape.
ghost use Rattle.std.specs.Prelude.{◌≡◌, length, OnErr};
ghost use Rattle.denial.specs.Rules.{Answers};
ghost use Rattle.formats.specs.NoisyTable.{load_into_rules, TableLoaded, LaysOut};

use crate::header::read_header;
use cells::Kind;
use denial::Denial;
use shapes::Shape;

// Loads a table of this shape into the first cells of a slice. Nothing is written before all is checked. The table made of
// rows is loaded as those rows, and a table that is loaded is the one made of its rows.
#[tactic(auto, using(crate::proofs::Made::lays_out))]
pub fn load_table<K: Kind>(table: &[u8], shape: Shape, noisy: &mut [K]) -> Result<(), Denial>
    ensures answer { Answers (load_into_rules K.number K.width shape.fanout shape.height (length noisy.old) table.now) (λ _. TableLoaded K.Kind.row K.width table.now shape.fanout shape.height noisy.old noisy.new) result }
    ensures kept { OnErr result (noisy.new ≡ noisy.old) }
    ensures layout { LaysOut }
{
    let header = read_header(table)?;
    header.check_kind::<K>()?;
    header.check_shape(shape)?;
    header.fill_into(shape, noisy)
}
