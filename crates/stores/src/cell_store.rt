ghost use Rattle.std.specs.Prelude.{◌≡◌, ◌<◌, ◌≤◌, min, length, take, replicate, MatchOption, slice_set};
ghost use Rattle.facts.specs.Lists.{Nth};
ghost use Rattle.facts.specs.Meanings.{meaning};
ghost use Rattle.facts.specs.Places.{empty};
ghost use Rattle.stores.specs.Built.{cells_of};
ghost use Rattle.stores.specs.Cells.{Beyond};
ghost use Rattle.stores.specs.Stores.{Placed, Removed};

use crate::content::Cell;
use crate::pick::Pick;
use crate::store::Store;
use facts::{Fact, MOST_ARGS};

const MOST_PLACES: usize = 4096;

// A store on the caller's memory. The first 4,096 cells are its places; the cells after those are left alone.
#[derive(Drop)]
pub struct CellStore<'a, C, P> {
    cells: &'a mut [C],
    picker: P,
}

impl<'a, C: Cell, P: Pick> CellStore<'a, C, P> {
    // An empty store of as many places as there are cells, up to 4,096.
    pub fn new(cells: &'a mut [C]) -> CellStore<'a, C, P>
        ensures clears { cells_of C.Cell.place result ≡ replicate (min 4096 (length cells.old)) empty }
        ensures starts { result.picker ≡ P.Pick.start }
        ensures beyond { Beyond cells.old result.cells.now }
    {
        let used = MOST_PLACES.min(cells.len());
        for cell in cells[..used].iter_mut() {
            *cell = cell.emptied();
        }
        CellStore {
            cells,
            picker: P::start(),
        }
    }

    // The cells that are places.
    fn used(&self) -> &[C]
        ensures value { result.now ≡ take 4096 self.now.cells.now }
        ensures few { length result.now ≤ 4096 }
    {
        &self.cells[..MOST_PLACES.min(self.cells.len())]
    }

    // The cell at a place.
    fn cell(&self, place: usize) -> Option<&C>
        ensures { MatchOption result (length (cells_of C.Cell.place self.now) ≤ place) (λ c. Nth (cells_of C.Cell.place self.now) place (C.Cell.place c.now)) }
    {
        self.used().get(place)
    }

    // Writes the cell at a place.
    fn write(&mut self, place: usize, cell: C)
        requires { place < length (cells_of C.Cell.place self.old) }
        ensures writes { cells_of C.Cell.place self.new ≡ slice_set (cells_of C.Cell.place self.old) place (C.Cell.place cell) }
        ensures same_picker { self.new.picker ≡ self.old.picker }
        ensures beyond { Beyond self.old.cells.now self.new.cells.now }
    {
        self.cells[place] = cell;
    }
}

impl<'a, C: Cell, P: Pick> Store<C::Value> for CellStore<'a, C, P> {
    ghost cells = { cells_of C.Cell.place };

    fn places(&self) -> usize {
        self.used().len()
    }

    fn room(&self) -> usize {
        // A form of the project, in place of filter and count: a loop over the cells.
        let mut count = 0;
        for cell in self.used() {
            if cell.number() == 0 {
                count += 1;
            }
        }
        count
    }

    fn read(&self, place: usize) -> Option<(u32, Fact<C::Value>)> {
        self.cell(place)?.content()
    }

    fn put(&mut self, fact: &Fact<C::Value>, number: u32) -> Option<usize>
        ensures puts { Placed (cells_of C.Cell.place self.old) number (meaning C.Value.meaning fact.now) result (cells_of C.Cell.place self.new) }
        ensures picks { P.Pick.picks self.old.picker (cells_of C.Cell.place self.old) result self.new.picker }
        ensures beyond { Beyond self.old.cells.now self.new.cells.now }
    {
        if number == 0 || fact.count > MOST_ARGS {
            return None;
        }
        let (place, picker) = self.picker.pick(self.used())?;
        self.write(place, C::holding(number, fact));
        self.picker = picker;
        Some(place)
    }

    fn remove(&mut self, place: usize, number: u32) -> bool
        ensures removes { Removed (cells_of C.Cell.place self.old) place number result (cells_of C.Cell.place self.new) }
        ensures same_picker { self.new.picker ≡ self.old.picker }
        ensures beyond { Beyond self.old.cells.now self.new.cells.now }
    {
        let Some(cell) = self.cell(place) else {
            return false;
        };
        let held = cell.number();
        if held == 0 || held != number {
            return false;
        }
        let emptied = cell.emptied();
        self.write(place, emptied);
        true
    }
}
