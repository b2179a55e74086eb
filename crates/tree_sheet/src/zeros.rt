// Cells for the slices of a sheet.
ghost use Rattle.std.specs.Prelude.{◌≡◌, map, replicate, IfOk, vec_len};
ghost use Rattle.algebra.specs.Row.{zeros};

use cells::Kind;
use std::alloc::{AllocError, Global};

// So many cells of zeros. `Vec::from_elem` copies by `clone`, of which a kind doesn't say that it gives the same cell.
pub fn zero_cells<K: Kind>(heap: Global, n: usize) -> Result<Vec<K>, AllocError>
    ensures len { IfOk result (λ v. vec_len v ≡ n) }
    ensures rows { IfOk result (λ v. map K.Kind.row v.items ≡ replicate n (zeros K.width)) }
{
    // The room comes first, so that a length that cannot be had is refused at once: `collect` would fill what memory there is, and
    // with `extend` the proof didn't close.
    let mut cells = Vec::with_capacity(heap, n)?;
    for i in 0..n {
        cells.push(K::zero())?;
    }
    Ok(cells)
}
