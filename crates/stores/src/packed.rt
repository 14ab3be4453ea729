ghost use Rattle.stores.specs.Stores.{Highest};
ghost use Rattle.std.proofs.Common.{rules};

use crate::cell::PackedCell;
use crate::cell_store::CellStore;
use crate::content::Cell;
use crate::pick::{Pick, last_empty};

// A store that spends five words on a place and keeps meanings alone, on the caller's memory.
// It fills the highest empty place.
pub type PackedStore<'a, V> = CellStore<'a, PackedCell<V>, Top>;

// Nothing is remembered.
#[derive(Clone, Copy)]
pub struct Top;

impl Pick for Top {
    ghost start = { record {} };

    ghost picks = { λ _ s r _. Highest s r };

    ghost keeps = { Prim.search rules };

    fn start() -> Top {
        Top
    }

    fn pick<C: Cell>(self, cells: &[C]) -> Option<(usize, Top)> {
        last_empty(cells).map(|place| (place, Top))
    }
}
