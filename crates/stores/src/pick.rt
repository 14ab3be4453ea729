ghost use Rattle.std.specs.Prelude.{◌≡◌, ℕ, List, map, None, Option};
ghost use Rattle.facts.specs.Meanings.{Meaning};
ghost use Rattle.facts.specs.Places.{Place};
ghost use Rattle.stores.specs.Stores.{FirstEmpty, LastEmpty, Picked};

use crate::content::Cell;

// How a store picks the place that it fills next.
pub trait Pick: Copy {
    ghost start: { Self };

    // Which place is picked, and the picker after it.
    ghost picks: { Self → List (Place Meaning) → Option ℕ → Self → Type 0 };

    // The picker of a store where nothing was put.
    fn start() -> Self
        ensures { result ≡ start };

    // An empty place, and the picker after it; none where no place is empty.
    fn pick<C: Cell>(self, cells: &[C]) -> Option<(usize, Self)>
        ensures { Picked picks self (map C.Cell.place cells.now) result };

    ghost keeps: { (p : Self) (s : List (Place Meaning)) → picks p s None p };
}

// The first empty cell.
pub(crate) fn first_empty<C: Cell>(cells: &[C]) -> Option<usize>
    ensures { FirstEmpty (map C.Cell.place cells.now) result }
{
    cells.iter().position(|cell| cell.is_empty())
}

// The last empty cell.
pub(crate) fn last_empty<C: Cell>(cells: &[C]) -> Option<usize>
    ensures { LastEmpty (map C.Cell.place cells.now) result }
{
    cells.iter().rposition(|cell| cell.is_empty())
}
