// A script, line by line.
ghost use Rattle.std.specs.Prelude.{◌≡◌, ◌⊎◌, ℕ, ◌+◌, ◌<◌, ◌^◌, List, ◌∷◌, codes, drop, length, map, IfOk, IsTrue, MatchResult, ◌≢◌};
ghost use Rattle.std.specs.Str.Lines.{lines};
ghost use Rattle.console.specs.Script.{is_some_line, line_words, said, Adds, EachSpells, FirstSaid};
ghost use Rattle.console.specs.Spelling.{kind_word, Long, Spells, SpellsTree};
ghost use Rattle.console.specs.declared.mistake.Mistake.TheVariants.{NoMemory};
ghost use Rattle.history.specs.Events.{Asked};
ghost use Rattle.tree_sheet.specs.Replay.{asked};
ghost use Rattle.console.specs.Words.{texts};
ghost use Rattle.cells.specs.declared.cell_kind.CellKind.{CellKind as Named};
ghost use Rattle.console.specs.declared.script.Tree.{Tree as Spelt};

use crate::call::read_call;
use crate::mistake::{Mistake, Trouble};
use crate::word::number;
use cells::{CellKind, Kind};
use std::alloc::{AllocError, Global};
use tree_sheet::Call;

// How many cells and marks a tree sheet is given.
#[derive(Clone, Copy, PartialEq, Eq, Debug)]
pub struct Lengths {
    pub noisy: usize,
    pub marks: usize,
    pub numerators: usize,
    pub work: usize,
}

#[derive(Clone, Copy, PartialEq, Eq, Debug)]
pub struct Tree {
    pub kind: CellKind,
    pub lengths: Lengths,
}

const USUAL_LENGTH: usize = 1023;

const MOST_LENGTH: usize = 4096;

// The kind that a word names. (The words are the script's own.)
fn kind_named(word: &str) -> Result<CellKind, Mistake>
    ensures { MatchResult result (λ c. word.now ≡ kind_word c) (λ _. (c : Named) → word.now ≢ kind_word c) }
{
    match word {
        "1" => Ok(CellKind::Single),
        "2" => Ok(CellKind::Pair),
        "3" => Ok(CellKind::Four),
        _ => Err(Mistake::NoKind),
    }
}

fn slice_length(word: &str) -> Result<usize, Mistake>
    ensures { MatchResult result (λ n. Long word.now n) (λ _. (n : ℕ) → Long word.now n → ⊥) }
{
    match number(word, Mistake::LongSlice) {
        Ok(n) if n <= MOST_LENGTH => Ok(n),
        _ => Err(Mistake::LongSlice),
    }
}

// The tree that the words after `tree` spell.
fn tree_of(arguments: &[&str]) -> Result<Tree, Mistake>
    ensures { MatchResult result (λ tree. SpellsTree (codes "tree" ∷ texts arguments.now) tree) (λ _. (tree : Spelt) → SpellsTree (codes "tree" ∷ texts arguments.now) tree → ⊥) }
{
    match arguments {
        [kind] => Ok(Tree {
            kind: kind_named(kind)?,
            lengths: Lengths {
                noisy: USUAL_LENGTH,
                marks: USUAL_LENGTH,
                numerators: USUAL_LENGTH,
                work: USUAL_LENGTH,
            },
        }),
        [kind, noisy, marks, numerators, work] => Ok(Tree {
            kind: kind_named(kind)?,
            lengths: Lengths {
                noisy: slice_length(noisy)?,
                marks: slice_length(marks)?,
                numerators: slice_length(numerators)?,
                work: slice_length(work)?,
            },
        }),
        _ => Err(Mistake::FirstLine),
    }
}

// The tree that the words of a first line spell.
pub fn read_tree(words: &[&str]) -> Result<Tree, Mistake>
    ensures { MatchResult result (λ tree. SpellsTree (texts words.now) tree) (λ _. (tree : Spelt) → SpellsTree (texts words.now) tree → ⊥) }
{
    match words {
        ["tree", arguments @ ..] => tree_of(arguments),
        ["run", ..] => Err(Mistake::NoTree),
        _ => Err(Mistake::FirstLine),
    }
}

pub fn lines_of<'a>(heap: Global, text: &'a str) -> Result<Vec<&'a str>, AllocError>
    ensures { IfOk result (λ v. texts v.items ≡ lines text.now) }
{
    text.lines().collect(heap)
}

// The words of a line; none of a line that is passed over.
fn words_of<'a>(heap: Global, line: &'a str) -> Result<Vec<&'a str>, AllocError>
    ensures { IfOk result (λ v. texts v.items ≡ line_words line.now) }
{
    if line.starts_with('#') {
        return Ok(Vec::new(heap));
    }
    line.split_ascii_whitespace().collect(heap)
}

// Adds the call of a line, unless it is passed over.
fn add_call<K: Kind>(heap: Global, calls: &mut Vec<Call<K>>, line: &str) -> Result<(), Mistake>
    ensures { MatchResult result (λ _. Adds K.width K.Kind.row (line_words line.now) calls.old.items calls.new.items) (λ m. (m ≡ NoMemory) ⊎ (IsTrue (is_some_line (line_words line.now)) × ((call : Asked) → Spells K.width (line_words line.now) call → ⊥))) }
{
    let words = words_of(heap, line)?;
    if !words.is_empty() {
        calls.push(read_call(heap, words.as_slice())?)?;
    }
    Ok(())
}

// A script whose first line is read: the tree that it spells, and the lines that are to spell calls.
#[derive(Clone, Copy)]
pub struct Script<'a> {
    pub tree: Tree,
    // How many lines stand before those of the calls.
    pub before: usize,
    pub lines: &'a [&'a str],
    ghost numbered: { before + length lines.now < 2 ^ 64 },
}

impl<'a> Script<'a> {
    // The first line is the first one that is not passed over.
    pub fn read(heap: Global, lines: &'a [&'a str]) -> Result<Self, Trouble>
        ensures { MatchResult result (λ s. FirstSaid (texts lines.now) s.before s.tree × (texts s.lines.now ≡ drop s.before (texts lines.now))) (λ t. (t.mistake ≡ NoMemory) ⊎ ((n : ℕ) (tree : Spelt) → FirstSaid (texts lines.now) n tree → ⊥)) }
    {
        for (i, line) in lines.iter().enumerate() {
            let number = i + 1;
            let words = words_of(heap, line).map_err(|_| Mistake::NoMemory.at(number))?;
            if !words.is_empty() {
                let tree = read_tree(words.as_slice()).map_err(|mistake| mistake.at(number))?;
                return Ok(Script {
                    tree,
                    before: number,
                    lines: &lines[number..],
                });
            }
        }
        Err(Mistake::NoFirstLine.at(1))
    }

    pub fn calls<K: Kind>(&self, heap: Global) -> Result<Vec<Call<K>>, Trouble>
        ensures { MatchResult result (λ calls. EachSpells K.width (said (texts self.now.lines.now)) (map (asked K.Kind.row) calls.items)) (λ t. (t.mistake ≡ NoMemory) ⊎ ((calls : List Asked) → EachSpells K.width (said (texts self.now.lines.now)) calls → ⊥)) }
    {
        let mut calls = Vec::new(heap);
        for (i, line) in self.lines.iter().enumerate() {
            let number = self.before + i + 1;
            add_call(heap, &mut calls, line).map_err(|mistake| mistake.at(number))?;
        }
        Ok(calls)
    }
}
