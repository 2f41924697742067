// The call Read.
// kept: state, slot, terminal, size and store one by one, as the rules list a call's arguments and the definitions take them: a struct would be taken apart in each contract.
ghost use Rattle.std.specs.Prelude.{◌≡◌, length, true};
ghost use Rattle.packing.specs.Store.{places_in};
ghost use Rattle.slots.specs.Outcome.{answer_of, told};
ghost use Rattle.slots.specs.Calls.{read_outcome, read_output};

use crate::room;
use refusals::{Refusal, applied};
use slot_calls::states;
use slots::{Answer, Outcome, State};

// Reads the slot's block into the front of `out`. The slot stays open.
#[tactic(auto, using(crate::proofs::Kept::read_kept), unfolding(packing::specs::Store::places_in))]
pub fn read(state: State, slot: usize, terminal: u16, store: &[u8], out: &mut [u8]) -> Outcome
    ensures value { told result ≡ read_outcome state store.now slot terminal (length out.old) }
    ensures out_after { out.new ≡ read_output state store.now slot terminal out.old }
{
    let answer = read_form(false, state, slot, terminal, store, out);
    Outcome { answer, state }
}

// The same for a store with four places a byte.
#[tactic(auto, using(crate::proofs::Kept::read_kept))]
pub fn read_packed(
    state: State,
    slot: usize,
    terminal: u16,
    store: &[u8],
    out: &mut [u8],
) -> Outcome
    ensures value { told result ≡ read_outcome state (places_in true store.now) slot terminal (length out.old) }
    ensures out_after { out.new ≡ read_output state (places_in true store.now) slot terminal out.old }
{
    let answer = read_form(true, state, slot, terminal, store, out);
    Outcome { answer, state }
}

// Its answer for a store of either form. The state stays as it came, and is not handed back with it: all of it would be copied.
// kept: the form is a flag, as in packing's functions and in the definitions (`places_in`); a type for each form would need a trait to say the same.
fn read_form(
    four: bool,
    state: State,
    slot: usize,
    terminal: u16,
    store: &[u8],
    out: &mut [u8],
) -> Answer
    ensures value { answer_of result ≡ (read_outcome state (places_in four store.now) slot terminal (length out.old)).answer }
    ensures out_after { out.new ≡ read_output state (places_in four store.now) slot terminal out.old }
{
    let asked = packing::places_asked(four, store.len());
    let owner = states::owner(state, asked, slot, terminal);
    let head = owner.admitted?;
    applied(out.len() < head.size, Refusal::TooShort)?;
    let long = state.blocks * packing::bytes_a_block(four);
    let from = slot * long;
    let to = from + long;
    room::read_room(four, head.size, &store[from..to], out)
}
