// The call that the words of a line spell.
ghost use Rattle.std.specs.Prelude.{◌≡◌, ℕ, ◌⊎◌, List, length, MatchResult, ◌≢◌};
ghost use Rattle.algebra.specs.Row.{Row};
ghost use Rattle.console.specs.Spelling.{Bytes, One, Placed, Spells, Two};
ghost use Rattle.console.specs.Words.{texts};
ghost use Rattle.console.specs.declared.mistake.Mistake.TheVariants.{NoMemory};
ghost use Rattle.history.specs.Events.{Asked};
ghost use Rattle.tree_sheet.specs.Replay.{asked};

use crate::digits::read_hex;
use crate::mistake::Mistake;
use crate::word::{Written, cell, number};
use cells::Kind;
use std::alloc::Global;
use tree_sheet::Call;

fn no_argument(arguments: &[&str]) -> Result<(), Mistake>
    ensures { MatchResult result (λ _. length (texts arguments.now) ≡ 0) (λ _. length (texts arguments.now) ≢ 0) }
{
    match arguments {
        [] => Ok(()),
        _ => Err(Mistake::Arguments),
    }
}

fn one<T: Written>(arguments: &[&str]) -> Result<T, Mistake>
    ensures { MatchResult result (λ n. One T.Writes (texts arguments.now) n) (λ _. (n : T) → One T.Writes (texts arguments.now) n → ⊥) }
{
    match arguments {
        [argument] => number(argument, Mistake::NoNumber),
        _ => Err(Mistake::Arguments),
    }
}

fn two_indices(arguments: &[&str]) -> Result<(u32, u32), Mistake>
    ensures { MatchResult result (λ p. Two (texts arguments.now) p.0 p.1) (λ _. (m n : ℕ) → Two (texts arguments.now) m n → ⊥) }
{
    let [first, second] = arguments else {
        return Err(Mistake::Arguments);
    };
    Ok((
        number(first, Mistake::NoNumber)?,
        number(second, Mistake::NoNumber)?,
    ))
}

fn index_and_cell<K: Kind>(arguments: &[&str]) -> Result<(u32, K), Mistake>
    ensures { MatchResult result (λ p. Placed K.width (texts arguments.now) p.0 (K.Kind.row p.1)) (λ _. (n : ℕ) (x : Row) → Placed K.width (texts arguments.now) n x → ⊥) }
{
    let [index, components @ ..] = arguments else {
        return Err(Mistake::Arguments);
    };
    Ok((number(index, Mistake::NoNumber)?, cell(components)?))
}

fn bytes(heap: Global, arguments: &[&str]) -> Result<Vec<u8>, Mistake>
    ensures { MatchResult result (λ v. Bytes (texts arguments.now) v.items) (λ m. (m ≡ NoMemory) ⊎ ((bs : List ℕ) → Bytes (texts arguments.now) bs → ⊥)) }
{
    match arguments {
        [] => Ok(Vec::new(heap)),
        [word] => read_hex(heap, word),
        _ => Err(Mistake::Arguments),
    }
}

pub fn read_call<K: Kind>(heap: Global, words: &[&str]) -> Result<Call<K>, Mistake>
    ensures { MatchResult result (λ call. Spells K.width (texts words.now) (asked K.Kind.row call)) (λ m. (m ≡ NoMemory) ⊎ ((call : Asked) → Spells K.width (texts words.now) call → ⊥)) }
{
    let [name, arguments @ ..] = words else {
        return Err(Mistake::NoCall);
    };
    match *name {
        "lay" => {
            let (fanout, height) = two_indices(arguments)?;
            Ok(Call::Lay { fanout, height })
        }
        "enter" => {
            let (node, cell) = index_and_cell(arguments)?;
            Ok(Call::Enter { node, cell })
        }
        "wire" => {
            let (wire, cell) = index_and_cell(arguments)?;
            Ok(Call::EnterWire { wire, cell })
        }
        "strike" => Ok(Call::Strike {
            node: one(arguments)?,
        }),
        "load" => Ok(Call::Load {
            table: bytes(heap, arguments)?,
        }),
        "release" => {
            no_argument(arguments)?;
            Ok(Call::Release)
        }
        "read" => Ok(Call::Read {
            node: one(arguments)?,
        }),
        "publish" => Ok(Call::Publish {
            room: one(arguments)?,
        }),
        _ => Err(Mistake::NoCall),
    }
}
