// The calls on rooms in either form: a place a byte, or four places a byte.
// kept: state, slot, terminal, size and store one by one, as the rules list a call's arguments and the definitions take them: a struct would be taken apart in each contract.
#![tactic(auto, unfolding(packing::specs::Store::places_in, packing::specs::Store::in_form))]

// kept: the calls of a trait with one impl a form would be ten bodies, and the form of a log's rooms is known only as it runs: one `if` in each call
// stays either way.

ghost use Rattle.std.specs.Prelude.{◌≡◌, length};
ghost use Rattle.slots.specs.Outcome.{told};
ghost use Rattle.slots.specs.Calls.{open_outcome, open_store, open_down_outcome, open_down_store, receive_outcome, receive_store, read_outcome, read_output, streams_outcome, streams_output};
ghost use Rattle.packing.specs.Store.{places_in, in_form};

use codeword::Receiver;
use slots::{Outcome, State};

// Open.
pub fn open_in(
    state: State,
    four: bool,
    slot: usize,
    terminal: u16,
    size: usize,
    store: &mut [u8],
) -> Outcome
    ensures value { told result ≡ open_outcome state (length (places_in four store.old)) slot terminal size }
    ensures store_after { store.new ≡ in_form four (open_store state slot size (places_in four store.old)) }
{
    if four {
        packing::open_packed(state, slot, terminal, size, store)
    } else {
        slot_calls::open(state, slot, terminal, size, store)
    }
}

// Open for a downlink.
pub fn open_down_in(
    state: State,
    four: bool,
    slot: usize,
    terminal: u16,
    size: usize,
    receiver: Receiver,
    store: &mut [u8],
) -> Outcome
    ensures value { told result ≡ open_down_outcome state (length (places_in four store.old)) slot terminal size receiver.release receiver.mimo receiver.processes receiver.soft receiver.layers }
    ensures store_after { store.new ≡ in_form four (open_down_store state slot size receiver.release receiver.mimo receiver.processes receiver.soft receiver.layers (places_in four store.old)) }
{
    if four {
        packing::open_down_packed(state, slot, terminal, size, receiver, store)
    } else {
        slot_calls::open_down(state, slot, terminal, size, receiver, store)
    }
}

// Receive.
pub fn receive_in(
    state: State,
    four: bool,
    slot: usize,
    terminal: u16,
    q: usize,
    n: usize,
    version: usize,
    bits: &[u8],
    store: &mut [u8],
) -> Outcome
    ensures value { told result ≡ receive_outcome state slot terminal q n version bits.now (places_in four store.old) }
    ensures store_after { store.new ≡ in_form four (receive_store state slot terminal q n version bits.now (places_in four store.old)) }
{
    if four {
        reception::receive_packed(state, slot, terminal, q, n, version, bits, store)
    } else {
        reception::receive(state, slot, terminal, q, n, version, bits, store)
    }
}

// Read.
pub fn read_in(
    state: State,
    four: bool,
    slot: usize,
    terminal: u16,
    store: &[u8],
    out: &mut [u8],
) -> Outcome
    ensures value { told result ≡ read_outcome state (places_in four store.now) slot terminal (length out.old) }
    ensures out_after { out.new ≡ read_output state (places_in four store.now) slot terminal out.old }
{
    if four {
        reading::read_packed(state, slot, terminal, store, out)
    } else {
        reading::read(state, slot, terminal, store, out)
    }
}

// Streams.
pub fn streams_in(
    state: State,
    four: bool,
    slot: usize,
    terminal: u16,
    block: usize,
    store: &[u8],
    out: &mut [u8],
) -> Outcome
    ensures value { told result ≡ streams_outcome state (length (places_in four store.now)) slot terminal block (length out.old) }
    ensures out_after { out.new ≡ streams_output state (places_in four store.now) slot terminal block out.old }
{
    if four {
        streaming::streams_packed(state, slot, terminal, block, store, out)
    } else {
        streaming::streams(state, slot, terminal, block, store, out)
    }
}
