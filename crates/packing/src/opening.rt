// Open on a store with four places a byte.
// kept: state, slot, terminal, size and store one by one, as the rules list a call's arguments and the definitions take them: a struct would be taken apart in each contract.
ghost use Rattle.std.specs.Prelude.{◌≡◌, true, cond, ◌+◌, ◌≤◌, length};
ghost use Rattle.slots.specs.State.{room_length, room_start};
ghost use Rattle.slots.specs.Room.{cleared};
ghost use Rattle.slots.specs.Outcome.{answer_of, told};
ghost use Rattle.slots.specs.Answers.{is_done};
ghost use Rattle.slots.specs.Calls.{open_outcome, open_store, open_down_outcome, open_down_store};
ghost use Rattle.packing.specs.Store.{places_in, in_form};

use crate::{PACKED_PER_BLOCK, places_asked};
use codeword::Receiver;
use slots::{Answer, Outcome, State};

// Opens a slot for a terminal with a block of `size` bits: 2 for every place of the room, then the head.
pub fn open_packed(
    state: State,
    slot: usize,
    terminal: u16,
    size: usize,
    store: &mut [u8],
) -> Outcome
    ensures value { told result ≡ open_outcome state (length (places_in true store.old)) slot terminal size }
    ensures store_after { store.new ≡ in_form true (open_store state slot size (places_in true store.old)) }
{
    let lent = places_asked(true, store.len());
    let after = slot_calls::open_outcome(state, lent, slot, terminal, size);
    let answer = after.answer;
    clear_room(answer, state.blocks, slot, store);
    after
}

// Opens a slot for a downlink, as `slot_calls::open_down` does.
pub fn open_down_packed(
    state: State,
    slot: usize,
    terminal: u16,
    size: usize,
    receiver: Receiver,
    store: &mut [u8],
) -> Outcome
    ensures value { told result ≡ open_down_outcome state (length (places_in true store.old)) slot terminal size receiver.release receiver.mimo receiver.processes receiver.soft receiver.layers }
    ensures store_after { store.new ≡ in_form true (open_down_store state slot size receiver.release receiver.mimo receiver.processes receiver.soft receiver.layers (places_in true store.old)) }
{
    let lent = places_asked(true, store.len());
    let after = slot_calls::open_down_outcome(state, lent, slot, terminal, size, receiver);
    let answer = after.answer;
    clear_room(answer, state.blocks, slot, store);
    after
}

// Unheard over a slot's whole room, four times in each byte, where its opening is done.
fn clear_room(answer: Answer, m: usize, slot: usize, store: &mut [u8])
    requires { is_done (answer_of answer) ≡ true → (m ≤ 5) × (slot ≤ 8) × (room_start m slot + room_length m ≤ length (places_in true store.old)) }
    ensures { store.new
        ≡ in_form true (cond (is_done (answer_of answer)) (cleared m slot (places_in true store.old)) (places_in true store.old)) }
{
    if !slot_calls::is_done(answer) {
        return;
    }
    let long = m * PACKED_PER_BLOCK;
    let from = slot * long;
    let to = from + long;
    store[from..to].fill(170);
}
