// Reading a release, and publishing it.
ghost use Rattle.std.specs.Prelude.{◌≡◌, length, OnErr};
ghost use Rattle.history.specs.Events.{read, publish};
ghost use Rattle.history.specs.Replies.{SameBytes, told_bytes, told_cell};
ghost use Rattle.tree_sheet.specs.Calls.{Carries, Publishes, Reads};

use crate::sheet::Sheet;
use cells::Kind;
use denial::{Denial, Reason};
use formats::write_publication;

impl<'a, K: Kind> Sheet<'a, K> {
    // The numerators of a node, and the denominator.
    pub fn read(&mut self, node: u32) -> Result<(K, u64), Denial>
        ensures outcome { Reads K.Kind self.old node result }
        ensures same { self.new ≡ self.old }
        ensures history { Carries K.Kind self.old self.new (read node) (told_cell K.Kind.row result) }
    {
        let shape = self.laid_node(node)?;
        self.check_released()?;
        Ok((self.numerators[node as usize], shape.denominator()))
    }

    // Writes the release into a buffer, from its first byte on, and answers how many bytes it wrote.
    pub fn publish(&mut self, out: &mut [u8]) -> Result<usize, Denial>
        ensures outcome { Publishes K.Kind self.old out.old out.new result }
        ensures kept { OnErr result (out.new ≡ out.old) }
        ensures same { self.new ≡ self.old }
        ensures history { Carries K.Kind self.old self.new (publish (length out.old)) (told_bytes out.new result) }
        ensures again { SameBytes }
    {
        let shape = self.released()?;
        // lent on from here, since a field that is handed on as `&` loses its cells in the proof
        let numerators = &mut *self.numerators;
        write_publication(shape, shape.denominator(), numerators, out)
    }
}
