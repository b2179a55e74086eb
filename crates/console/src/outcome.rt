// The line of an outcome.
ghost use Rattle.std.specs.Prelude.{◌≡◌, map, IfOk, string_bytes};
ghost use Rattle.tree_sheet.specs.Replay.{reply};
ghost use Rattle.std.specs.List.{flat_map};
ghost use Rattle.console.specs.Lines.{bytes_line, cell_line, reply_line};

use crate::digits::write_hex;
use cells::{Components, Kind};
use std::alloc::{AllocError, Global};
use std::fmt::Write;
use tree_sheet::{Answer, Outcome};

fn cell_text<K: Kind>(heap: Global, cell: K, denominator: u64) -> Result<String, AllocError>
    ensures { IfOk result (λ t. string_bytes t ≡ cell_line (K.Kind.row cell) denominator) }
{
    let mut text = String::from_str(heap, "ok")?;
    for component in Components::of(cell) {
        write!(text, " {component}")?;
    }
    writeln!(text, " {denominator}")?;
    Ok(text)
}

fn bytes_text(heap: Global, bytes: &[u8]) -> Result<String, AllocError>
    ensures { IfOk result (λ t. string_bytes t ≡ bytes_line bytes.now) }
{
    let digits = write_hex(heap, bytes)?;
    format!(in heap; "ok {digits}\n")
}

pub fn outcome_text<K: Kind>(heap: Global, outcome: &Outcome<K>) -> Result<String, AllocError>
    ensures { IfOk result (λ t. string_bytes t ≡ reply_line (reply K.Kind.row outcome.now)) }
{
    match outcome {
        Ok(Answer::Done) => String::from_str(heap, "ok\n"),
        Ok(Answer::Cell(cell, denominator)) => cell_text(heap, *cell, *denominator),
        Ok(Answer::Publication(bytes)) => bytes_text(heap, bytes.as_slice()),
        Err(denial) => format!(in heap; "{denial}\n"),
    }
}

// The lines of all outcomes, in their order.
pub fn outcomes_text<K: Kind>(heap: Global, outcomes: &[Outcome<K>]) -> Result<String, AllocError>
    ensures { IfOk result (λ t. string_bytes t ≡ flat_map reply_line (map (reply K.Kind.row) outcomes.now)) }
{
    let mut text = String::new(heap);
    for outcome in outcomes {
        text.push_str(outcome_text(heap, outcome)?.as_str())?;
    }
    Ok(text)
}
