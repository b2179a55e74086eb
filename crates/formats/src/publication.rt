// Writing a tree publication into a buffer.
ghost use Rattle.std.specs.Prelude.{◌≡◌, ◌+◌, ◌*◌, ◌<◌, ◌++◌, length, take, drop, IfOk, MatchResult};
ghost use Rattle.algebra.specs.Row.{row_at};
ghost use Rattle.denial.specs.Rules.{Answers};
ghost use Rattle.shapes.specs.Tree.{size};
ghost use Rattle.formats.specs.Publication.{publication_header, row_bytes, table_bytes, publication, laid_length, Says, ReadsBack, CutsBack, OnePublication, write_rules};

use crate::body::component_count;
use crate::header::VERSION;
use cells::{Components, Kind};
use denial::{Denial, Reason};
use shapes::Shape;

pub(crate) const MARK: [u8; 3] = *b"HCR";

pub(crate) const PUBLICATION_HEADER_BYTES: usize = 16;

pub(crate) const NUMERATOR_BYTES: usize = 8;

// How many bytes a publication has. Every publication is read back as it was written, and so is each node that is cut out;
// what it says is said by no other bytes.
pub fn publication_length<K: Kind>(shape: Shape) -> usize
    ensures value { result ≡ laid_length K.width shape.fanout shape.height }
    ensures law { ReadsBack }
    ensures cuts { CutsBack }
    ensures one { OnePublication }
{
    PUBLICATION_HEADER_BYTES + NUMERATOR_BYTES * component_count::<K>(shape)
}

#[tactic(auto, unfolding(crate::specs::Bytes::bytes_of))]
fn header<K: Kind>(shape: Shape, denominator: u64) -> [u8; PUBLICATION_HEADER_BYTES]
    ensures { result ≡ publication_header K.number shape.fanout shape.height denominator }
{
    let [m0, m1, m2] = MARK;
    let [v0, v1] = VERSION.to_be_bytes();
    let kind = K::number();
    // A shape's numbers are bytes, so nothing is lost, and `try_from` would have to be unwrapped.
    let (fanout, height) = (shape.fanout as u8, shape.height as u8);
    let [d0, d1, d2, d3, d4, d5, d6, d7] = denominator.to_be_bytes();
    [
        m0, m1, m2, v0, v1, kind, fanout, height, d0, d1, d2, d3, d4, d5, d6, d7,
    ]
}

// Writes the components of a cell, each by its place: the library's `chunks_exact_mut` says nothing of what it leaves.
fn write_cell<K: Kind>(out: &mut [u8], cell: K)
    requires { length out.old ≡ 8 * K.width }
    ensures { out.new ≡ row_bytes (K.Kind.row cell) }
{
    for (i, x) in Components::of(cell).enumerate() {
        let at = NUMERATOR_BYTES * i;
        out[at..at + NUMERATOR_BYTES].copy_from_slice(&x.to_be_bytes());
    }
}

// Writes cells one after another, each by its place for the same reason.
fn write_cells<K: Kind>(out: &mut [u8], cells: &[K])
    requires { length out.old ≡ 8 * (K.width * length cells.now) }
    ensures { out.new ≡ table_bytes (length cells.now) (row_at K.Kind.row cells.now) }
{
    let size = NUMERATOR_BYTES * K::width();
    for (v, cell) in cells.iter().enumerate() {
        write_cell(&mut out[size * v..size * (v + 1)], *cell);
    }
}

// Writes a whole publication at the front of a buffer, and answers its length. A buffer that is too short is left as it is.
pub fn write_publication<K: Kind>(
    shape: Shape,
    denominator: u64,
    numerators: &[K],
    out: &mut [u8],
) -> Result<usize, Denial>
    ensures answer { Answers (write_rules (length numerators.now) (length out.old) K.width (size shape.fanout shape.height)) (λ n. n ≡ laid_length K.width shape.fanout shape.height) result }
    ensures written { MatchResult result (λ n. out.new ≡ publication K.number shape.fanout shape.height denominator (row_at K.Kind.row numerators.now) ++ drop n out.old) (λ _. out.new ≡ out.old) }
    ensures reads { IfOk result (λ n. Says (take n out.new) K.number K.width shape.fanout shape.height denominator (row_at K.Kind.row numerators.now)) }
{
    let nodes = shape.nodes();
    if numerators.len() < nodes {
        return Err(Denial {
            reason: Reason::SliceTooShort,
            // the call's one slice of cells
            place: 1,
        });
    }
    let bytes = publication_length::<K>(shape);
    if out.len() < bytes {
        return Err(Denial {
            reason: Reason::BufferTooShort,
            place: bytes as u64,
        });
    }
    out[..PUBLICATION_HEADER_BYTES].copy_from_slice(&header::<K>(shape, denominator));
    write_cells(
        &mut out[PUBLICATION_HEADER_BYTES..bytes],
        &numerators[..nodes],
    );
    Ok(bytes)
}
