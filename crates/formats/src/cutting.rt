// Cutting the numerators of one node out of a tree publication.
ghost use Rattle.std.specs.Prelude.{◌≡◌, length, IfOk};
ghost use Rattle.denial.specs.Rules.{Answers};
ghost use Rattle.formats.specs.NoisyTable.{fanout_in, height_in};
ghost use Rattle.formats.specs.Publication.{row_from, published_row, header_rules, content_rules, published_rules, cut_rules, PublicationOf, NodePart};

use crate::header::{Header, check_mark};
use crate::publication::{MARK, NUMERATOR_BYTES, PUBLICATION_HEADER_BYTES, publication_length};
use cells::Kind;
use denial::{Denial, Reason};
use shapes::Shape;

// What the header of a publication says.
#[derive(Clone, Copy, PartialEq, Eq, Debug)]
struct Published<'a> {
    header: Header<'a>,
    denominator: u64,
}

// The numerators of one node, and where in the publication they begin.
#[derive(Clone, Copy, PartialEq, Eq, Debug)]
pub struct Part<'a> {
    pub bytes: &'a [u8],
    pub offset: usize,
}

// Takes the header of a publication apart.
fn read_publication(publication: &[u8]) -> Result<Published<'_>, Denial>
    ensures { Answers (header_rules publication.now) (λ p. PublicationOf publication.now p.header.kind p.header.fanout p.header.height p.denominator) result }
{
    let [
        m0,
        m1,
        m2,
        v0,
        v1,
        kind,
        fanout,
        height,
        d0,
        d1,
        d2,
        d3,
        d4,
        d5,
        d6,
        d7,
        components @ ..,
    ] = publication
    else {
        return Err(Denial {
            reason: Reason::TableTooShort,
            place: publication.len() as u64,
        });
    };
    check_mark(MARK, [*m0, *m1, *m2], [*v0, *v1])?;
    let header = Header {
        kind: *kind,
        fanout: *fanout,
        height: *height,
        components,
    };
    Ok(Published {
        header,
        denominator: u64::from_be_bytes([*d0, *d1, *d2, *d3, *d4, *d5, *d6, *d7]),
    })
}

impl Published<'_> {
    // The shape that the header names, where the denominator and the length are that shape's.
    fn shape<K: Kind>(self, length: usize) -> Result<Shape, Denial>
        ensures { Answers (content_rules K.width self.entry.header.fanout self.entry.header.height self.entry.denominator length) (λ s. (s.fanout ≡ self.entry.header.fanout) × (s.height ≡ self.entry.header.height)) result }
    {
        let shape = self.header.shape().map_err(|_| Denial {
            reason: Reason::WrongShape,
            place: 6,
        })?;
        if self.denominator != shape.denominator() {
            return Err(Denial {
                reason: Reason::WrongDenominator,
                place: 8,
            });
        }
        let expected = publication_length::<K>(shape);
        if length != expected {
            return Err(Denial {
                reason: Reason::WrongLength,
                place: expected as u64,
            });
        }
        Ok(shape)
    }
}

// Whether the bytes are a publication of the kind K, and of which shape.
fn check_publication<K: Kind>(publication: &[u8]) -> Result<Shape, Denial>
    ensures { Answers (published_rules K.number K.width publication.now) (λ s. (s.fanout ≡ fanout_in publication.now) × (s.height ≡ height_in publication.now)) result }
{
    let published = read_publication(publication)?;
    published.header.check_kind::<K>()?;
    published.shape::<K>(publication.len())
}

// The numerators of one node.
pub fn cut<K: Kind>(publication: &[u8], node: u32) -> Result<Part<'_>, Denial>
    ensures answer { Answers (cut_rules K.number K.width publication.now node) (λ p. NodePart K.width publication.now node p.offset p.bytes.now) result }
    ensures reads { IfOk result (λ p. row_from K.width p.bytes.now 0 ≡ published_row K.width publication.now node) }
{
    let shape = check_publication::<K>(publication)?;
    let node = node as usize;
    if node >= shape.nodes() {
        return Err(Denial {
            reason: Reason::NoSuchNode,
            place: node as u64,
        });
    }
    let width = K::width();
    let offset = PUBLICATION_HEADER_BYTES + NUMERATOR_BYTES * (width * node);
    Ok(Part {
        bytes: &publication[offset..offset + NUMERATOR_BYTES * width],
        offset,
    })
}
