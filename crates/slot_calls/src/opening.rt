// The calls New, Open, Open for a downlink, and Close.
// kept: state, slot, terminal, size and store one by one, as the rules list a call's arguments and the definitions take them: a struct would be taken apart in each contract.
ghost use Rattle.std.specs.Prelude.{◌≡◌, true, cond, [], ◌∷◌, ◌++◌, ◌+◌, ◌≤◌, ◌<◌, length};
ghost use Rattle.codeword.specs.Downlink.{too_short};
ghost use Rattle.refusals.specs.Refusals.{number_of, number_in, rule, first_of};
ghost use Rattle.segmentation.specs.Segmentation.{blocks};
ghost use Rattle.slots.specs.State.{room_length, room_start, new_state};
ghost use Rattle.slots.specs.Room.{cleared};
ghost use Rattle.slots.specs.Outcome.{Refused, answer_of, told};
ghost use Rattle.slots.specs.Answers.{is_done};
ghost use Rattle.slots.specs.Calls.{new_outcome, opened_for, open_rules, open_number, open_outcome, open_store, open_down_outcome, open_down_store, close_number, close_outcome};

use crate::states;
use codeword::Receiver;
use refusals::{Refusal, applied};
use slots::{Answer, Head, Outcome, State};

// The share of the soft buffer that an uplink's code block has: the places of the largest circle.
const WHOLE_SHARE: usize = 18528;

// A state of S slots for M code blocks each, all closed. Touches no room.
pub fn new(slots: usize, blocks: usize) -> Outcome
    ensures { told result ≡ new_outcome slots blocks }
{
    if states::bad_shape(slots, blocks) {
        return Outcome {
            answer: Err(Refusal::BadState.into()),
            state: all_closed(0, 0),
        };
    }
    Outcome {
        answer: Ok(None),
        state: all_closed(slots, blocks),
    }
}

// S, M and eight closed heads.
fn all_closed(slots: usize, blocks: usize) -> State
    ensures { result ≡ new_state slots blocks }
{
    State {
        slots,
        blocks,
        heads: [Head::default(); 8],
    }
}

// Opens a slot for a terminal with a block of `size` bits: 2 over the whole room, then the head.
pub fn open(state: State, slot: usize, terminal: u16, size: usize, store: &mut [u8]) -> Outcome
    ensures value { told result ≡ open_outcome state (length store.old) slot terminal size }
    ensures store_after { store.new ≡ open_store state slot size store.old }
{
    let after = open_outcome(state, store.len(), slot, terminal, size);
    let answer = after.answer;
    clear_room(answer, state.blocks, slot, store);
    after
}

// Its answer and the state, for a store that keeps `lent` places: a store in another form is cleared by another call.
pub fn open_outcome(state: State, lent: usize, slot: usize, terminal: u16, size: usize) -> Outcome
    ensures { told result ≡ open_outcome state lent slot terminal size }
{
    match open_admitted(state, lent, slot, size) {
        Ok(()) => opened(state, slot, terminal, size, WHOLE_SHARE),
        Err(refusal) => refused(refusal, state),
    }
}

// Opens a slot for a downlink: the same, and each code block has its share of the receiver's soft buffer.
pub fn open_down(
    state: State,
    slot: usize,
    terminal: u16,
    size: usize,
    receiver: Receiver,
    store: &mut [u8],
) -> Outcome
    ensures value { told result ≡ open_down_outcome state (length store.old) slot terminal size receiver.release receiver.mimo receiver.processes receiver.soft receiver.layers }
    ensures store_after { store.new ≡ open_down_store state slot size receiver.release receiver.mimo receiver.processes receiver.soft receiver.layers store.old }
{
    let after = open_down_outcome(state, store.len(), slot, terminal, size, receiver);
    let answer = after.answer;
    clear_room(answer, state.blocks, slot, store);
    after
}

// Its answer and the state, for a store that keeps `lent` places.
pub fn open_down_outcome(
    state: State,
    lent: usize,
    slot: usize,
    terminal: u16,
    size: usize,
    receiver: Receiver,
) -> Outcome
    ensures { told result ≡ open_down_outcome state lent slot terminal size receiver.release receiver.mimo receiver.processes receiver.soft receiver.layers }
{
    let count = states::block_count(size);
    let share = codeword::share_for(count, receiver);
    match down_admitted(state, lent, slot, size, share) {
        Ok(()) => opened(state, slot, terminal, size, share),
        Err(refusal) => refused(refusal, state),
    }
}

// A refusal, with the state as it came.
fn refused(refusal: Refusal, state: State) -> Outcome
    ensures { told result ≡ record { answer = Refused (number_of refusal); state = state } }
{
    Outcome {
        answer: Err(refusal.into()),
        state,
    }
}

// The slot opened: its head holds the terminal, A and the share.
fn opened(state: State, slot: usize, terminal: u16, size: usize, share: usize) -> Outcome
    requires { slot < 8 }
    ensures { told result ≡ opened_for state slot terminal size share }
{
    let head = Head {
        opened: true,
        terminal,
        size,
        share,
    };
    Outcome {
        answer: Ok(None),
        state: states::with_head(state, slot, head),
    }
}

// Accepted, with nothing to tell.
pub fn is_done(answer: Answer) -> bool
    ensures { result ≡ is_done (answer_of answer) }
{
    match answer {
        Ok(lacking) => lacking.is_none(),
        Err(_) => false,
    }
}

// Open's refusals for a downlink, for a share of the soft buffer, 0 where the receiver is refused: Open's, then 21.
fn down_admitted(
    state: State,
    lent: usize,
    slot: usize,
    size: usize,
    share: usize,
) -> Result<(), Refusal>
    ensures { number_in result ≡ first_of (open_rules state lent slot size ++ (rule (too_short share (size + 24) (blocks (size + 24))) 21 ∷ [])) }
{
    open_admitted(state, lent, slot, size)?;
    let short = states::too_short(share, size);
    applied(short, Refusal::BadReceiver)
}

// Open's refusals, for a store of `lent` bytes.
fn open_admitted(state: State, lent: usize, slot: usize, size: usize) -> Result<(), Refusal>
    ensures { number_in result ≡ open_number state lent slot size }
{
    let head = states::stored_head(state, lent, slot)?;
    applied(head.opened, Refusal::OpenAlready)?;
    applied(states::bad_size(size), Refusal::BadLength)?;
    applied(states::too_many(state.blocks, size), Refusal::TooManyBlocks)
}

// Unheard over a slot's whole room, where its opening is done.
fn clear_room(answer: Answer, m: usize, slot: usize, store: &mut [u8])
    requires { is_done (answer_of answer) ≡ true → (m ≤ 5) × (slot ≤ 8) × (room_start m slot + room_length m ≤ length store.old) }
    ensures { store.new ≡ cond (is_done (answer_of answer)) (cleared m slot store.old) store.old }
{
    if !is_done(answer) {
        return;
    }
    let from = states::room_start(m, slot);
    let to = from + states::room_length(m);
    store[from..to].fill(2);
}

// The head becomes closed; the room is not written.
pub fn close(state: State, slot: usize, terminal: u16) -> Outcome
    ensures { told result ≡ close_outcome state slot terminal }
{
    match close_admitted(state, slot, terminal) {
        Ok(()) => Outcome {
            answer: Ok(None),
            state: states::with_head(state, slot, Head::default()),
        },
        Err(refusal) => refused(refusal, state),
    }
}

// Close's refusals.
fn close_admitted(state: State, slot: usize, terminal: u16) -> Result<(), Refusal>
    ensures { number_in result ≡ close_number state slot terminal }
{
    let head = states::look(state, slot)?;
    let present = slot < state.slots;
    applied(!present, Refusal::NoSlot)?;
    states::owned(head, terminal)
}
