// The numbers and the cells that words write.
ghost use Rattle.std.specs.Prelude.{◌≡◌, List, ℕ, MatchResult, Result};
ghost use Rattle.algebra.specs.Row.{Row};
ghost use Rattle.console.specs.Words.{Components, Integer, Number, texts};
ghost use Rattle.std.specs.declared.num.ParseIntError.{ParseIntError};
ghost use Rattle.console.specs.Parsing.{integer_parsed, number_parsed};

use crate::mistake::Mistake;
use cells::Kind;
use std::num::ParseIntError;
use std::str::FromStr;

// A type of numbers, and which word writes which of them.
pub trait Written: FromStr<Err = ParseIntError> {
    ghost Writes: { List ℕ → Self → Type 0 };

    // What is read from a word is what it writes, and where nothing is read it writes no number.
    ghost parsed: { (word : List ℕ) (r : Result Self ParseIntError) → Self.from_str_gives word r → MatchResult r (λ n. Writes word n) (λ _. (n : Self) → Writes word n → ⊥) };
}

impl Written for u32 {
    ghost Writes = { Number 32 };

    ghost parsed = { λ word r h. number_parsed 32 word r h.0 };
}

impl Written for usize {
    ghost Writes = { Number 64 };

    ghost parsed = { λ word r h. number_parsed 64 word r h.0 };
}

impl Written for i64 {
    ghost Writes = { Integer };

    ghost parsed = { λ word r h. integer_parsed word r h.0 };
}

// The number that a word writes.
pub fn number<T: Written>(word: &str, mistake: Mistake) -> Result<T, Mistake>
    ensures { MatchResult result (λ n. T.Writes word.now n) (λ m. (m ≡ mistake) × ((n : T) → T.Writes word.now n → ⊥)) }
{
    word.parse::<T>().map_err(|_| mistake)
}

// The cell with these components.
pub fn cell<K: Kind>(words: &[&str]) -> Result<K, Mistake>
    ensures { MatchResult result (λ c. Components K.width (texts words.now) (K.Kind.row c)) (λ _. (x : Row) → Components K.width (texts words.now) x → ⊥) }
{
    if words.len() != K::width() {
        return Err(Mistake::Components);
    }
    let mut answer = K::zero();
    for (i, word) in words.iter().enumerate() {
        let x = number(word, Mistake::Component)?;
        answer = answer.set_component(i, x).map_err(|_| Mistake::Component)?;
    }
    Ok(answer)
}
