// A script is read, its calls are made, and their outcomes are told.
ghost use Rattle.std.specs.Prelude.{◌≡◌, ◌⊎◌, ℕ, ◌<◌, List, length, map, IfOk, MatchResult, Some, string_bytes};
ghost use Rattle.history.specs.Events.{Asked};
ghost use Rattle.tree_sheet.specs.Replay.{asked};
ghost use Rattle.console.specs.Mistakes.{line_of};
ghost use Rattle.console.specs.Play.{Follows, Played, Plays, WantsMemory, stop_text};
ghost use Rattle.console.specs.Script.{said, EachSpells};
ghost use Rattle.console.specs.Words.{texts};
ghost use Rattle.console.specs.declared.play.Stop.TheVariants.{Wrong, OutOfMemory, Io};

use crate::mistake::{Mistake, Trouble};
use crate::outcome::outcomes_text;
use crate::script::{Lengths, Script, lines_of};
use cells::{CellKind, Four, Kind, Pair, Single};
use std::alloc::{AllocError, Global};
use std::error::Error;
use std::{fmt, io, str};
use tree_sheet::{Call, replay, zero_cells};

// Why a script is not played.
#[derive(Clone, Copy, PartialEq, Eq, Debug)]
pub enum Stop {
    Wrong(Trouble),
    OutOfMemory,
    Io,
}

impl fmt::Display for Stop {
    ghost output = { λ stop. Some (stop_text stop) };

    fn fmt<W: fmt::Write>(&self, f: &mut fmt::Formatter<W>) -> fmt::Result {
        match self {
            Stop::Wrong(trouble) => write!(f, "{trouble}"),
            Stop::OutOfMemory => write!(f, "{}", Mistake::NoMemory),
            Stop::Io => write!(f, "input or output failed"),
        }
    }
}

impl Error for Stop {}

impl From<Trouble> for Stop {
    ghost from_gives = { λ t r. r ≡ Wrong t };

    fn from(trouble: Trouble) -> Stop {
        Stop::Wrong(trouble)
    }
}

impl From<AllocError> for Stop {
    ghost from_gives = { λ _ r. r ≡ OutOfMemory };

    fn from(_error: AllocError) -> Stop {
        Stop::OutOfMemory
    }
}

impl From<io::Error> for Stop {
    ghost from_gives = { λ _ r. r ≡ Io };

    fn from(_error: io::Error) -> Stop {
        Stop::Io
    }
}

// The lines of the calls' outcomes on a new tree sheet.
fn sheet_text<K: Kind>(
    heap: Global,
    lengths: Lengths,
    calls: &[Call<K>],
) -> Result<String, AllocError>
    ensures { IfOk result (λ t. Played K.number K.width K.product lengths (map (asked K.Kind.row) calls.now) (string_bytes t)) }
{
    let mut noisy = zero_cells::<K>(heap, lengths.noisy)?;
    let mut marks = Vec::from_elem(heap, 0u8, lengths.marks)?;
    let mut numerators = zero_cells::<K>(heap, lengths.numerators)?;
    let mut work = zero_cells::<K>(heap, lengths.work)?;
    let outcomes = replay(
        heap,
        noisy.as_mut_slice(),
        marks.as_mut_slice(),
        numerators.as_mut_slice(),
        work.as_mut_slice(),
        calls,
    )?;
    outcomes_text(heap, outcomes.as_slice())
}

fn play_tree<K: Kind>(heap: Global, script: &Script<'_>) -> Result<String, Stop>
    ensures { MatchResult result (λ t. Follows K.number K.width K.product script.now.tree.lengths (said (texts script.now.lines.now)) (string_bytes t)) (λ stop. WantsMemory stop ⊎ ((calls : List Asked) → EachSpells K.width (said (texts script.now.lines.now)) calls → ⊥)) }
{
    let calls = script.calls::<K>(heap)?;
    let lines = sheet_text(heap, script.tree.lengths, calls.as_slice())?;
    Ok(lines)
}

// The number of the line, from 1, that the byte at a place stands in.
fn line_at(text: &[u8], place: usize) -> usize
    requires { place < length text.now }
    ensures { result ≡ line_of text.now place }
{
    text[..place].iter().filter(|b| **b == b'\n').count() + 1
}

// What is printed for a script, or why it is not played: for want of memory, or since nothing is what is printed for it.
pub fn play_script(heap: Global, script: &[u8]) -> Result<String, Stop>
    ensures { MatchResult result (λ t. Plays script.now (string_bytes t)) (λ stop. WantsMemory stop ⊎ ((text : List ℕ) → Plays script.now text → ⊥)) }
{
    let text = str::from_utf8(script).map_err(|error| Mistake::NoText.at(line_at(
        script,
        error.valid_up_to(),
    )))?;
    let lines = lines_of(heap, text)?;
    let script = Script::read(heap, lines.as_slice())?;
    // A match, since no closure is generic over the kind.
    match script.tree.kind {
        CellKind::Single => play_tree::<Single>(heap, &script),
        CellKind::Pair => play_tree::<Pair>(heap, &script),
        CellKind::Four => play_tree::<Four>(heap, &script),
    }
}
