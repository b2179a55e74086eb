// The header of a noisy table.
ghost use Rattle.std.specs.Prelude.{◌≡◌, position, zip, not, ◌==◌};
ghost use Rattle.cells.specs.Names.{kind_number};
ghost use Rattle.denial.specs.Rules.{Answers, denied};
ghost use Rattle.denial.specs.declared.reason.Reason.TheVariants.{WrongKind};
ghost use Rattle.shapes.specs.Laid.{shape_rules};
ghost use Rattle.formats.specs.NoisyTable.{start_rules, HeaderOf, form_rules, kind_rules, any_kind_rules, like_rules};

use cells::{CellKind, Kind};
use denial::{Denial, Reason};
use shapes::Shape;

const MARK: [u8; 3] = *b"HCT";

// The version of every format.
pub(crate) const VERSION: u16 = 1;

// What a header says, which may be any bytes, and the components that stand after it.
#[derive(Clone, Copy, PartialEq, Eq, Debug)]
pub struct Header<'a> {
    pub kind: u8,
    pub fanout: u8,
    pub height: u8,
    pub components: &'a [u8],
}

// The first place at which three bytes are not a mark.
fn wrong_mark(mark: [u8; 3], found: [u8; 3]) -> Option<usize>
    ensures { result ≡ position (λ p. not (p.0 == p.1)) (zip found mark) }
{
    found
        .iter()
        .zip(&mark)
        .position(|(byte, expected)| byte != expected)
}

// Whether a format begins with its mark and the version.
pub(crate) fn check_mark(mark: [u8; 3], found: [u8; 3], version: [u8; 2]) -> Result<(), Denial>
    ensures { Answers (start_rules mark found version) (λ _. Unit {0}) result }
{
    if let Some(at) = wrong_mark(mark, found) {
        return Err(Denial {
            reason: Reason::WrongMark,
            place: at as u64,
        });
    }
    if u16::from_be_bytes(version) != VERSION {
        return Err(Denial {
            reason: Reason::WrongVersion,
            place: 3,
        });
    }
    Ok(())
}

// Takes the header of a table apart.
pub fn read_header(table: &[u8]) -> Result<Header<'_>, Denial>
    ensures { Answers (form_rules table.now) (λ h. HeaderOf table.now h.kind h.fanout h.height h.components.now) result }
{
    let [m0, m1, m2, v0, v1, kind, fanout, height, components @ ..] = table else {
        return Err(Denial {
            reason: Reason::TableTooShort,
            place: table.len() as u64,
        });
    };
    check_mark(MARK, [*m0, *m1, *m2], [*v0, *v1])?;
    Ok(Header {
        kind: *kind,
        fanout: *fanout,
        height: *height,
        components,
    })
}

fn wrong_kind() -> Denial
    ensures { result ≡ denied WrongKind 5 }
{
    Denial {
        reason: Reason::WrongKind,
        place: 5,
    }
}

impl Header<'_> {
    // Whether the table is of the kind K.
    pub fn check_kind<K: Kind>(self) -> Result<(), Denial>
        ensures { Answers (kind_rules K.number self.entry.kind) (λ _. Unit {0}) result }
    {
        if self.kind != K::number() {
            return Err(wrong_kind());
        }
        Ok(())
    }

    // The kind of cell that the header names, or why there is none.
    pub fn cell_kind(self) -> Result<CellKind, Denial>
        ensures { Answers (any_kind_rules self.entry.kind) (λ kind. self.entry.kind ≡ kind_number kind) result }
    {
        CellKind::try_from(self.kind).map_err(|_| wrong_kind())
    }

    // Whether the table is of this shape.
    pub fn check_shape(self, shape: Shape) -> Result<(), Denial>
        ensures { Answers (like_rules shape.fanout shape.height self.entry.fanout self.entry.height) (λ _. Unit {0}) result }
    {
        if usize::from(self.fanout) != shape.fanout {
            return Err(Denial {
                reason: Reason::WrongShape,
                place: 6,
            });
        }
        if usize::from(self.height) != shape.height {
            return Err(Denial {
                reason: Reason::WrongShape,
                place: 7,
            });
        }
        Ok(())
    }

    // The shape that the header names, or why there is none.
    pub fn shape(self) -> Result<Shape, Denial>
        ensures { Answers (shape_rules self.entry.fanout self.entry.height) (λ s. (s.fanout ≡ self.entry.fanout) × (s.height ≡ self.entry.height)) result }
    {
        Shape::new(u32::from(self.fanout), u32::from(self.height))
    }
}
