// The call that a line of the yard's log asks for, by its verb, on a state and the rooms in either form.
#![tactic(auto)]

ghost use Rattle.std.specs.Prelude.{◌≡◌, length};
ghost use Rattle.slots.specs.Outcome.{told};
ghost use Rattle.slots.specs.Calls.{open_down_outcome, open_down_store};
ghost use Rattle.packing.specs.Store.{places_in, in_form};
ghost use Rattle.call_rows.specs.Rows.{at};
ghost use Rattle.line_calls.specs.Call.{outcome_by, store_by};

use codeword::Receiver;
use requests::Verb;
use slots::{Outcome, State};

// Makes the call that a verb asks for with its numbers n, the second of them again as the terminal, and its bits, on the state and on the store that has
// the rooms, in their form. A verb that only asks, or asks for nothing or for a change of form, leaves both as they are.
#[tactic(auto, unfolding(crate::specs::Call::outcome_by, crate::specs::Call::store_by))]
pub fn make_call(
    verb: Verb,
    n: [usize; 9],
    terminal: u16,
    bits: &[u8],
    state: State,
    four: bool,
    store: &mut [u8],
) -> Outcome
    ensures value { told result ≡ outcome_by verb n terminal bits.now state (places_in four store.old) }
    ensures store_after { store.new ≡ store_by verb n terminal bits.now state four store.old }
{
    match verb {
        Verb::New => slot_calls::new(n[0], n[1]),
        Verb::Open => room_calls::open_in(state, four, n[0], terminal, n[2], store),
        Verb::OpenDown => opened_down(state, four, n, terminal, store),
        Verb::Close => slot_calls::close(state, n[0], terminal),
        Verb::Receive => {
            room_calls::receive_in(state, four, n[0], terminal, n[2], n[3], n[4], bits, store)
        }
        _ => Outcome {
            answer: Ok(None),
            state,
        },
    }
}

// Open for a downlink.
fn opened_down(state: State, four: bool, n: [usize; 9], terminal: u16, store: &mut [u8]) -> Outcome
    ensures value { told result ≡ open_down_outcome state (length (places_in four store.old)) (at n 0) terminal (at n 2) (at n 3) (at n 4) (at n 5) (at n 6) (at n 7) }
    ensures store_after { store.new ≡ in_form four (open_down_store state (at n 0) (at n 2) (at n 3) (at n 4) (at n 5) (at n 6) (at n 7) (places_in four store.old)) }
{
    let receiver = Receiver {
        release: n[3],
        mimo: n[4],
        processes: n[5],
        soft: n[6],
        layers: n[7],
    };
    room_calls::open_down_in(state, four, n[0], terminal, n[2], receiver, store)
}
