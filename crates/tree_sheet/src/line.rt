// The lines of the listing of a release, each put into a buffer of the caller's.
ghost use Rattle.std.specs.Prelude.{◌≡◌};
ghost use Rattle.listing_lines.specs.Buffer.{buffered};
ghost use Rattle.tree_sheet.specs.Held.{contents};
ghost use Rattle.tree_sheet.specs.Lines.{FirstLine, NodeLine, first_line_of, node_line_of};

use crate::sheet::Sheet;
use cells::Kind;
use denial::Denial;

impl<'a, K: Kind> Sheet<'a, K> {
    // The first line.
    pub fn first_line(&mut self, out: &mut [u8]) -> Result<usize, Denial>
        ensures outcome { FirstLine K.Kind.row K.number (contents self.old) out.old result }
        ensures buffer { out.new ≡ buffered (first_line_of K.number (contents self.old)) out.old result }
        ensures same { self.new ≡ self.old }
    {
        let shape = self.released()?;
        let (fanout, height) = (shape.fanout as u32, shape.height as u32);
        listing_lines::first_line(K::number(), fanout, height, shape.denominator(), out)
    }

    // The line of a node.
    pub fn node_line(&mut self, node: u32, out: &mut [u8]) -> Result<usize, Denial>
        ensures outcome { NodeLine K.Kind.row (contents self.old) node out.old result }
        ensures buffer { out.new ≡ buffered (node_line_of K.Kind.row (contents self.old) node) out.old result }
        ensures same { self.new ≡ self.old }
    {
        let (cell, denominator) = self.read(node)?;
        listing_lines::node_line(node, cell, denominator, out)
    }
}
