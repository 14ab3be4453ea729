#![tactic(auto)]

ghost use Rattle.std.specs.Prelude.{◌≡◌};
ghost use Rattle.moves.specs.Moves.{Moved};

use facts::Kind;
use lists::WaitingList;
use stores::Store;

// Why no fact was moved.
#[derive(Clone, Copy, PartialEq, Debug)]
pub enum Refusal {
    NoneWaits,
    NumberZero,
    NoRoom,
}

// Moves one fact from the list to the store, where it stands under the number; answers its place.
pub fn move_one<V: Kind, L: WaitingList<V>, S: Store<V>>(
    list: &mut L,
    store: &mut S,
    number: u32,
) -> Result<usize, Refusal>
    ensures moves { Moved (L.WaitingList.waiting list.old) (S.Store.cells store.old) number result (L.WaitingList.waiting list.new) (S.Store.cells store.new) }
    ensures fixed { L.WaitingList.capacity list.new ≡ L.WaitingList.capacity list.old }
{
    if list.count() == 0 {
        return Err(Refusal::NoneWaits);
    }
    if number == 0 {
        return Err(Refusal::NumberZero);
    }
    if store.room() == 0 {
        return Err(Refusal::NoRoom);
    }
    // A fact waits and a place is empty, so neither is missing.
    let fact = list.take().unwrap();
    Ok(store.put(&fact, number).unwrap())
}

#[cfg(test)]
mod tests;
