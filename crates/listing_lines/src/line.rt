// A line of text that is made piece by piece, in an array of its own.
ghost use Rattle.std.specs.Prelude.{◌≡◌, ◌+◌, ◌≤◌, ◌∷◌, ◌++◌, length};
ghost use Rattle.arrayvec.specs.ArrayString.{array_string_len};
ghost use Rattle.denial.specs.Rules.{Answers};
ghost use Rattle.listing_lines.specs.Buffer.{buffered, line_rules};
ghost use Rattle.listing_lines.specs.Text.{Room};

use arrayvec::ArrayString;
use denial::{Denial, Reason};
use itoa::{Buffer, Integer};

// No line is longer: 17 numbers of 20 characters at most, each with a space or a line feed.
const LONGEST: usize = 357;

pub type Line = ArrayString<LONGEST>;

// A number.
pub fn add_number<I: Integer>(line: &mut Line, n: I)
    requires { Room line.old I.MAX_STR_LEN }
    ensures adds { line.new.bytes ≡ line.old.bytes ++ I.text n }
    ensures short { array_string_len line.new ≤ array_string_len line.old + I.MAX_STR_LEN }
{
    line.push_str(Buffer::new().format(n));
}

// A space, then a number.
pub fn add_field<I: Integer>(line: &mut Line, n: I)
    requires { Room line.old (1 + I.MAX_STR_LEN) }
    ensures adds { line.new.bytes ≡ line.old.bytes ++ 32 ∷ I.text n }
    ensures short { array_string_len line.new ≤ array_string_len line.old + 1 + I.MAX_STR_LEN }
{
    line.push(' ');
    add_number(line, n);
}

// Puts the line at the front of `out`, and answers its length.
pub fn copy_to(line: &Line, out: &mut [u8]) -> Result<usize, Denial>
    ensures answers { Answers (line_rules line.now.bytes out.old) (λ n. n ≡ length line.now.bytes) result }
    ensures buffer { out.new ≡ buffered line.now.bytes out.old result }
{
    let text = line.as_bytes();
    let len = text.len();
    if out.len() < len {
        return Err(Denial {
            reason: Reason::BufferTooShort,
            place: len as u64,
        });
    }
    out[..len].copy_from_slice(text);
    Ok(len)
}
