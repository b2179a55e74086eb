// The marks of the nodes: a byte a node, since the caller lends a slice of bytes.
ghost use Rattle.std.specs.Prelude.{◌≡◌, ◌≤◌, ◌++◌, length, drop, replicate};

pub(crate) const EMPTY: u8 = 0;

pub(crate) const FILLED: u8 = 1;

// The same mark at the first n nodes. A function, since a part of a slice behind a field loses its bytes in the proof.
pub(crate) fn mark_all(marks: &mut [u8], n: usize, mark: u8)
    requires { n ≤ length marks.old }
    ensures { marks.new ≡ replicate n mark ++ drop n marks.old }
{
    marks[..n].fill(mark);
}
