// Any list of calls on a new sheet, with the outcome of each.
ghost use Rattle.std.specs.Prelude.{◌≡◌, List, [], map, length, IfOk, MatchResult};
ghost use Rattle.history.specs.Events.{Event, publish};
ghost use Rattle.history.specs.Runs.{Faithful, past};
ghost use Rattle.tree_sheet.specs.Calls.{Carries};
ghost use Rattle.tree_sheet.specs.Passes.{Lent};
ghost use Rattle.tree_sheet.specs.Replay.{Leaves, asked, reply};

use crate::call::{Answer, Call, Outcome};
use crate::sheet::Sheet;
use cells::Kind;
use history::State;
use std::alloc::{AllocError, Global};

// No publication is longer: 1,023 rows of 8 components.
const LONGEST: usize = 65_488;

// Publishes into a buffer of so many bytes, of which no more are made than a publication can have. (With a `map` whose closure takes
// the bytes the proof did not close.)
fn publication<K: Kind>(
    heap: Global,
    sheet: &mut Sheet<'_, K>,
    room: usize,
) -> Result<Outcome<K>, AllocError>
    ensures answer { IfOk result (λ o. Carries K.Kind sheet.old sheet.new (publish room) (reply K.Kind.row o)) }
    ensures same { sheet.new ≡ sheet.old }
{
    let mut bytes = Vec::from_elem(heap, 0u8, room.min(LONGEST))?;
    match sheet.publish(bytes.as_mut_slice()) {
        Ok(n) => {
            bytes.truncate(n);
            Ok(Ok(Answer::Publication(bytes)))
        }
        Err(denial) => Ok(Err(denial)),
    }
}

// Makes one call. A call is data and no closure, since a history of calls is told by their arguments.
fn perform<K: Kind>(
    heap: Global,
    sheet: &mut Sheet<'_, K>,
    call: &Call<K>,
) -> Result<Outcome<K>, AllocError>
    ensures answer { MatchResult result (λ o. Carries K.Kind sheet.old sheet.new (asked K.Kind.row call.now) (reply K.Kind.row o)) (λ _. sheet.new ≡ sheet.old) }
    ensures lent { Lent sheet.old sheet.new }
{
    let done = |()| Answer::Done;
    match call {
        Call::Lay { fanout, height } => Ok(sheet.lay(*fanout, *height).map(done)),
        Call::Enter { node, cell } => Ok(sheet.enter(*node, *cell).map(done)),
        Call::EnterWire { wire, cell } => Ok(sheet.enter_wire(*wire, *cell).map(done)),
        Call::Strike { node } => Ok(sheet.strike(*node).map(done)),
        Call::Load { table } => Ok(sheet.load(table.as_slice()).map(done)),
        Call::Release => Ok(sheet.release().map(done)),
        Call::Read { node } => Ok(
            sheet
                .read(*node)
                .map(|(cell, over)| Answer::Cell(cell, over)),
        ),
        Call::Publish { room } => publication(heap, sheet, *room),
    }
}

// Performs any list of calls on a new sheet over slices of any contents. Each outcome is the one that the calls before it determine,
// and what an accepted publish wrote is the nearest table to the counts that stood then. The slices hold afterwards what the calls
// leave; where memory ran out on the way, what the calls that were made leave.
pub fn replay<K: Kind>(
    heap: Global,
    noisy: &mut [K],
    marks: &mut [u8],
    numerators: &mut [K],
    work: &mut [K],
    calls: &[Call<K>],
) -> Result<Vec<Outcome<K>>, AllocError>
    ensures run { IfOk result (λ log. Faithful K.number K.width K.product (record { noisy = length noisy.old; marks = length marks.old; numerators = length numerators.old; work = length work.old }) [] (map (asked K.Kind.row) calls.now) (map (reply K.Kind.row) log.items)) }
    ensures slices { MatchResult result (λ log. Leaves K.Kind.row K.width (past [] (map (asked K.Kind.row) calls.now) (map (reply K.Kind.row) log.items)) noisy.new marks.new numerators.new work.new) (λ _. (h : List Event) × Leaves K.Kind.row K.width h noisy.new marks.new numerators.new work.new) }
{
    // What `Sheet::new` makes. Through that call the proof lost what the slices hold at the end: it didn't close.
    let mut sheet = Sheet {
        noisy,
        marks,
        numerators,
        work,
        state: State::Unlaid,
    };
    let mut log = Vec::new(heap);
    for call in calls {
        let outcome = perform(heap, &mut sheet, call)?;
        log.push(outcome)?;
    }
    Ok(log)
}
