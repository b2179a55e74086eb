// The listing of a solved table, and that of a refused one.
ghost use Rattle.std.specs.Prelude.{◌≡◌, ◌≤◌, ◌++◌, length, IfOk};
ghost use Rattle.algebra.specs.Row.{row_at};
ghost use Rattle.shapes.specs.Tree.{size};
ghost use Rattle.listing_lines.specs.Lines.{first_line, refusal_line};
ghost use Rattle.listing.specs.Text.{node_lines, GrowsBy};

use cells::Kind;
use denial::Denial;
use listing_lines::{first_line_text, node_line_text, refusal_line_text};
use shapes::Shape;
use std::alloc::{AllocError, Global};

// The lines of the first n nodes. (The count stays: the rows are told of all the numerators, and would have to be told again of
// a part of them.)
fn add_nodes<K: Kind>(
    text: &mut Vec<u8>,
    numerators: &[K],
    n: usize,
    d: u64,
) -> Result<(), AllocError>
    requires some { 1 ≤ d }
    requires few { n ≤ 1023 }
    requires within { n ≤ length numerators.now }
    ensures { GrowsBy text.old.items (node_lines (row_at K.Kind.row numerators.now) d) n result text.new.items }
{
    for (v, cell) in numerators[..n].iter().enumerate() {
        let line = node_line_text(v as u32, *cell, d).unwrap();
        text.extend_from_slice(line.as_bytes())?;
    }
    Ok(())
}

// The listing of a solved table.
pub(crate) fn solved_text<K: Kind>(
    heap: Global,
    shape: Shape,
    numerators: &[K],
    d: u64,
) -> Result<Vec<u8>, AllocError>
    requires some { 1 ≤ d }
    requires within { size shape.fanout shape.height ≤ length numerators.now }
    ensures { IfOk result
        (λ t. t.items ≡ first_line K.number shape.fanout shape.height d
        ++ node_lines (row_at K.Kind.row numerators.now) d (size shape.fanout shape.height)) }
{
    let first = first_line_text(K::number(), shape.fanout as u32, shape.height as u32, d);
    let mut text = Vec::from_slice(heap, first.as_bytes())?;
    add_nodes(&mut text, numerators, shape.nodes(), d)?;
    Ok(text)
}

// The one line of a refused table.
pub(crate) fn refused_text(heap: Global, denial: Denial) -> Result<Vec<u8>, AllocError>
    ensures { IfOk result (λ t. t.items ≡ refusal_line denial) }
{
    Vec::from_slice(heap, refusal_line_text(denial).as_bytes())
}
