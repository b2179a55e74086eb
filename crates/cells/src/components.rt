// The components of a cell, one after the other.
ghost use Rattle.std.specs.Prelude.{◌≡◌};
ghost use Rattle.std.specs.Iterator.{YieldsFirst, item_count};

use crate::kind::Kind;

#[derive(Clone, Copy)]
pub struct Components<K: Kind> {
    cell: K,
    next: usize,
}

impl<K: Kind> Components<K> {
    ghost use Rattle.cells.specs.Components.{components_left};

    // All components of a cell.
    pub fn of(cell: K) -> Self
        ensures { components_left K.Kind.row result ≡ K.Kind.row cell }
    {
        Components { cell, next: 0 }
    }
}

impl<K: Kind> Iterator for Components<K> {
    type Item = i64;

    ghost use Rattle.cells.specs.Components.{components_left};

    ghost next_gives = { YieldsFirst (components_left K.Kind.row) };

    ghost remaining = { item_count (components_left K.Kind.row) };

    fn next(&mut self) -> Option<i64> {
        // The width ends it, and not a denial, so that a loop over them can be unrolled for each kind.
        if self.next >= K::width() {
            return None;
        }
        let component = self.cell.component(self.next).unwrap();
        self.next += 1;
        Some(component)
    }
}
