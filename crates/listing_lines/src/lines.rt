// The first line of a listing and the line of a refusal, each by itself or put into a buffer of the caller's.
ghost use Rattle.std.specs.Prelude.{◌≡◌, length};
ghost use Rattle.denial.specs.Rules.{Answers};
ghost use Rattle.listing_lines.specs.Buffer.{buffered, line_rules};
ghost use Rattle.listing_lines.specs.Lines.{first_line, refusal_line};

use crate::line::{Line, add_field, copy_to};
use denial::Denial;

const VERSION: u64 = 1;

pub fn first_line_text(kind: u8, fanout: u32, height: u32, denominator: u64) -> Line
    ensures { result.bytes ≡ first_line kind fanout height denominator }
{
    let mut line = Line::new();
    line.push_str("HCR");
    add_field(&mut line, VERSION);
    add_field(&mut line, kind);
    add_field(&mut line, fanout);
    add_field(&mut line, height);
    add_field(&mut line, denominator);
    line.push('\n');
    line
}

pub fn first_line(
    kind: u8,
    fanout: u32,
    height: u32,
    denominator: u64,
    out: &mut [u8],
) -> Result<usize, Denial>
    ensures answers { Answers (line_rules (first_line kind fanout height denominator) out.old)
        (λ n. n ≡ length (first_line kind fanout height denominator)) result }
    ensures buffer { out.new ≡ buffered (first_line kind fanout height denominator) out.old result }
{
    copy_to(&first_line_text(kind, fanout, height, denominator), out)
}

// Piece by piece, since no clause of `writeln!` says that it succeeds where there is room, and that proof didn't close.
pub fn refusal_line_text(denial: Denial) -> Line
    ensures { result.bytes ≡ refusal_line denial }
{
    let mut line = Line::new();
    line.push_str("refused");
    add_field(&mut line, denial.reason.number());
    add_field(&mut line, denial.place);
    line.push('\n');
    line
}

pub fn refusal_line(denial: Denial, out: &mut [u8]) -> Result<usize, Denial>
    ensures answers { Answers (line_rules (refusal_line denial) out.old)
        (λ n. n ≡ length (refusal_line denial)) result }
    ensures buffer { out.new ≡ buffered (refusal_line denial) out.old result }
{
    copy_to(&refusal_line_text(denial), out)
}
