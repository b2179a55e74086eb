// Bytes as pairs of hex digits.
ghost use Rattle.std.specs.Prelude.{◌≡◌, ◌⊎◌, string_bytes, IfOk, MatchResult, OnOk};
ghost use Rattle.std.specs.List.{list_all};
ghost use Rattle.std.specs.Char.{is_ascii_hexdigit};
ghost use Rattle.console.specs.Hex.{Hex, ReadsBack, bytes_of, hex_text};
ghost use Rattle.console.specs.declared.mistake.Mistake.TheVariants.{NoHex, NoMemory};

use crate::mistake::Mistake;
use std::alloc::{AllocError, Global};

// More digits than any table has.
const LONG: usize = 65_536;

// Whether a word is hex digits alone, in either case.
fn is_digits(word: &str) -> bool
    ensures { result ≡ list_all is_ascii_hexdigit word.now }
{
    word.as_bytes().iter().all(|b| b.is_ascii_hexdigit())
}

// Where there are many digits they are looked at first, so that a long word that is no hex asks for no memory.
pub fn read_hex(heap: Global, word: &str) -> Result<Vec<u8>, Mistake>
    ensures { MatchResult result (λ v. Hex word.now × (v.items ≡ bytes_of word.now)) (λ m. (m ≡ NoMemory) ⊎ ((m ≡ NoHex) × (Hex word.now → ⊥))) }
{
    if word.len() > LONG && !is_digits(word) {
        return Err(Mistake::NoHex);
    }
    Ok(hex::decode(heap, word)?)
}

pub fn write_hex(heap: Global, bytes: &[u8]) -> Result<String, AllocError>
    ensures bytes { IfOk result (λ t. string_bytes t ≡ hex_text bytes.now) }
    ensures back { OnOk result (ReadsBack bytes.now) }
{
    hex::encode(heap, bytes)
}
