// The components of a noisy table.
ghost use Rattle.std.specs.Prelude.{◌≡◌, position, ℕ, ◌+◌, ◌*◌, ◌<◌, ◌≤◌, length, map, drop, OnErr, nat_lt, slice_set, unsigned_abs};
ghost use Rattle.algebra.specs.Row.{row_at};
ghost use Rattle.denial.specs.Rules.{Answers};
ghost use Rattle.shapes.specs.Tree.{size};
ghost use Rattle.formats.specs.Bytes.{signed};
ghost use Rattle.formats.specs.NoisyTable.{body_row, laid_rules, fill_rules, Filled};

use crate::header::Header;
use cells::Kind;
use denial::{Denial, Reason};
use shapes::Shape;

const TABLE_HEADER_BYTES: usize = 8;

const COMPONENT_BYTES: usize = 4;

// How many components the table of a shape has.
pub(crate) fn component_count<K: Kind>(shape: Shape) -> usize
    ensures { result ≡ K.width * size shape.fanout shape.height }
{
    K::width() * shape.nodes()
}

// A function of its own, since with this test in the closure itself the proof did not close.
fn is_beyond(word: &[u8; COMPONENT_BYTES], limit: u32) -> bool
    ensures { result ≡ nat_lt limit (unsigned_abs (signed word.now)) }
{
    i32::from_be_bytes(*word).unsigned_abs() > limit
}

// The first component that is over a limit, up to its sign.
fn first_beyond(words: &[[u8; COMPONENT_BYTES]], limit: u32) -> Option<usize>
    ensures { result ≡ position (λ word. nat_lt limit (unsigned_abs (signed word))) words.now }
{
    words.iter().position(|word| is_beyond(word, limit))
}

// Whether the components are those of a table of that shape, and within its entry limit.
pub fn check_body<K: Kind>(components: &[u8], shape: Shape) -> Result<(), Denial>
    ensures { Answers (laid_rules K.width shape.fanout shape.height components.now) (λ _. Unit {0}) result }
{
    let bytes = COMPONENT_BYTES * component_count::<K>(shape);
    if components.len() != bytes {
        return Err(Denial {
            reason: Reason::WrongLength,
            place: (TABLE_HEADER_BYTES + bytes) as u64,
        });
    }
    let (words, _) = components.as_chunks();
    if let Some(i) = first_beyond(words, shape.entry_limit()) {
        return Err(Denial {
            reason: Reason::LoadedBeyondLimit,
            place: (TABLE_HEADER_BYTES + COMPONENT_BYTES * i) as u64,
        });
    }
    Ok(())
}

// A cell with one of its components replaced; four bytes hold nothing over the carry limit.
fn with_component<K: Kind>(cell: K, i: usize, x: i32) -> K
    requires { i < K.width }
    ensures { K.Kind.row result ≡ slice_set (K.Kind.row cell) i x }
{
    cell.set_component(i, i64::from(x)).unwrap()
}

// The cell that has these components.
fn cell_of<K: Kind>(words: &[[u8; COMPONENT_BYTES]]) -> K
    requires { length words.now ≡ K.width }
    ensures { K.Kind.row result ≡ map signed words.now }
{
    let mut cell = K::zero();
    for (i, word) in words.iter().enumerate() {
        cell = with_component(cell, i, i32::from_be_bytes(*word));
    }
    cell
}

// Fills the first n cells of a slice. (The count stays: that the cells past them are as they were is part of the promise.)
fn fill_cells<K: Kind>(components: &[u8], noisy: &mut [K], n: usize)
    requires room { n ≤ length noisy.old }
    requires whole { 4 * (K.width * n) ≤ length components.now }
    ensures rows { (v : ℕ) → v < n → row_at K.Kind.row noisy.new v ≡ body_row K.width components.now v }
    ensures rest { drop n noisy.new ≡ drop n noisy.old }
    ensures same_length { length noisy.new ≡ length noisy.old }
{
    let width = K::width();
    let (words, _) = components.as_chunks();
    // By place: over a zip of `iter_mut` with the rows' words nothing would be known of the cells.
    for (v, cell) in noisy[..n].iter_mut().enumerate() {
        *cell = cell_of(&words[width * v..width * (v + 1)]);
    }
}

impl Header<'_> {
    // Fills the first cells of a slice with the components, where they are a table's of this shape. Nothing is written
    // before all is checked.
    pub(crate) fn fill_into<K: Kind>(self, shape: Shape, noisy: &mut [K]) -> Result<(), Denial>
        ensures answer { Answers (fill_rules K.width shape.fanout shape.height (length noisy.old) self.entry.components.now) (λ _. Filled K.Kind.row K.width shape.fanout shape.height self.entry.components.now noisy.old noisy.new) result }
        ensures kept { OnErr result (noisy.new ≡ noisy.old) }
    {
        let nodes = shape.nodes();
        if noisy.len() < nodes {
            return Err(Denial {
                reason: Reason::SliceTooShort,
                // the call's one slice of cells
                place: 1,
            });
        }
        check_body::<K>(self.components, shape)?;
        fill_cells(self.components, noisy, nodes);
        Ok(())
    }
}
