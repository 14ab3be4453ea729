ghost use Rattle.stores.specs.Stores.{Marked};
ghost use Rattle.std.proofs.Common.{rules};

use crate::cell::FlatCell;
use crate::cell_store::CellStore;
use crate::content::Cell;
use crate::pick::{Pick, first_empty};

// A store with a record for each place, on the caller's memory. It fills the first empty place at or after
// its mark, going round; the mark is the place last filled.
pub type FlatStore<'a, V> = CellStore<'a, FlatCell<V>, Mark>;

// The place last filled; 0 at first.
#[derive(Clone, Copy)]
pub struct Mark {
    place: usize,
}

impl Pick for Mark {
    ghost start = { record { place = 0 } };

    ghost picks = { λ mark s r next. Marked s mark.place r next.place };

    ghost keeps = { Prim.search rules };

    fn start() -> Mark {
        Mark { place: 0 }
    }

    fn pick<C: Cell>(self, cells: &[C]) -> Option<(usize, Mark)> {
        let (before, after) = cells.split_at(self.place.min(cells.len()));
        let place = match first_empty(after) {
            Some(further) => before.len() + further,
            None => first_empty(before)?,
        };
        Some((place, Mark { place }))
    }
}
