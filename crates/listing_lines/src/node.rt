// The line of one node.
ghost use Rattle.std.specs.Prelude.{◌≡◌, length};
ghost use Rattle.denial.specs.Rules.{Answers};
ghost use Rattle.listing_lines.specs.Buffer.{buffered};
ghost use Rattle.listing_lines.specs.Lines.{node_line, node_rules};
ghost use Rattle.listing_lines.specs.Nearest.{nearest_rules};

use crate::line::{Line, add_field, add_number, copy_to};
use crate::rounding::nearest;
use cells::{Components, Kind};
use denial::Denial;

// The node's number, the components of its cell, then the nearest whole number of each over the denominator.
pub fn node_line_text<K: Kind>(node: u32, cell: K, denominator: u64) -> Result<Line, Denial>
    ensures { Answers (nearest_rules denominator)
        (λ line. line.bytes ≡ node_line node (K.Kind.row cell) denominator) result }
{
    let mut line = Line::new();
    add_number(&mut line, node);
    for numerator in Components::of(cell) {
        add_field(&mut line, numerator);
    }
    for numerator in Components::of(cell) {
        add_field(&mut line, nearest(numerator, denominator)?);
    }
    line.push('\n');
    Ok(line)
}

pub fn node_line<K: Kind>(
    node: u32,
    cell: K,
    denominator: u64,
    out: &mut [u8],
) -> Result<usize, Denial>
    ensures answers { Answers (node_rules node (K.Kind.row cell) denominator out.old)
        (λ n. n ≡ length (node_line node (K.Kind.row cell) denominator)) result }
    ensures buffer { out.new ≡ buffered (node_line node (K.Kind.row cell) denominator) out.old result }
{
    copy_to(&node_line_text(node, cell, denominator)?, out)
}
