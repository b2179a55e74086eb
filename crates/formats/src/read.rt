// Reading a whole noisy table.
ghost use Rattle.std.specs.Prelude.{◌≡◌, length, OnErr};
ghost use Rattle.denial.specs.Rules.{Answers};
ghost use Rattle.formats.specs.NoisyTable.{read_rules, TableRead};

use crate::header::read_header;
use cells::Kind;
use denial::Denial;
use shapes::Shape;

// Reads a table into the first cells of a slice, and answers its shape. Nothing is written before all is checked.
pub fn read_table<K: Kind>(table: &[u8], noisy: &mut [K]) -> Result<Shape, Denial>
    ensures answer { Answers (read_rules K.number K.width (length noisy.old) table.now) (λ s. TableRead K.Kind.row K.width table.now s noisy.old noisy.new) result }
    ensures kept { OnErr result (noisy.new ≡ noisy.old) }
{
    let header = read_header(table)?;
    header.check_kind::<K>()?;
    let shape = header.shape()?;
    header.fill_into(shape, noisy)?;
    Ok(shape)
}
