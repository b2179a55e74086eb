// The text that the program prints for a table.
ghost use Rattle.std.specs.Prelude.{◌≡◌, map, replicate, IfOk, vec_len};
ghost use Rattle.algebra.specs.Row.{zeros};
ghost use Rattle.formats.specs.NoisyTable.{kind_in, read_rules};
ghost use Rattle.listing.specs.Listing.{Listed, ListedAt, Listing, Tells, table_rules, width_of, most_nodes};

use crate::halt::Halt;
use crate::lines::{refused_text, solved_text};
use cells::{CellKind, Four, Kind, Pair, Single};
use formats::{read_header, read_table};
use solver::solve;
use std::alloc::{AllocError, Global};

const MOST_NODES: usize = 1023;

// So many cells of zeros. (`vec!` copies by `clone`, of which a kind doesn't say that it gives the same cell.)
fn zero_cells<K: Kind>(heap: Global, n: usize) -> Result<Vec<K>, AllocError>
    ensures len { IfOk result (λ v. vec_len v ≡ n) }
    ensures rows { IfOk result (λ v. map K.Kind.row v.items ≡ replicate n (zeros K.width)) }
{
    let mut cells = Vec::with_capacity(heap, n)?;
    for i in 0..n {
        cells.push(K::zero())?;
    }
    Ok(cells)
}

// The listing of a table of the kind K.
fn table_text<K: Kind>(heap: Global, table: &[u8]) -> Result<Vec<u8>, Halt>
    ensures { Tells (read_rules K.number K.width most_nodes table.now)
        (λ t. Listed K.number K.width table.now t.items) result }
{
    let mut noisy = zero_cells::<K>(heap, MOST_NODES)?;
    let mut numerators = zero_cells::<K>(heap, MOST_NODES)?;
    let mut work = zero_cells::<K>(heap, MOST_NODES)?;
    let shape = read_table(table, noisy.as_mut_slice())?;
    let d = solve(
        shape,
        noisy.as_mut_slice(),
        numerators.as_mut_slice(),
        work.as_mut_slice(),
    );
    let text = solved_text(heap, shape, numerators.as_slice(), d)?;
    Ok(text)
}

// The listing of a table of any kind. A match on the kind, since no closure is generic over it.
fn any_text(heap: Global, table: &[u8]) -> Result<Vec<u8>, Halt>
    ensures { Tells (table_rules table.now)
        (λ t. ListedAt (width_of (kind_in table.now)) table.now t.items) result }
{
    let header = read_header(table)?;
    match header.cell_kind()? {
        CellKind::Single => table_text::<Single>(heap, table),
        CellKind::Pair => table_text::<Pair>(heap, table),
        CellKind::Four => table_text::<Four>(heap, table),
    }
}

// The listing of a table, or the line of its refusal.
pub fn listing(heap: Global, table: &[u8]) -> Result<Vec<u8>, AllocError>
    ensures { IfOk result (λ t. Listing table.now t.items) }
{
    match any_text(heap, table) {
        Ok(text) => Ok(text),
        Err(Halt::Denied(denial)) => refused_text(heap, denial),
        Err(Halt::NoMemory(error)) => Err(error),
    }
}
