// The state of the slots in the bytes that a C caller keeps, and what a call leaves in them.
#![tactic(auto)]

mod numbers;

ghost use Rattle.std.specs.Prelude.{◌≡◌, ◌+◌, ◌≤◌, length};
ghost use Rattle.slots.specs.Outcome.{answer_of, told};
ghost use Rattle.slots.specs.Answers.{number_of};
ghost use Rattle.slots.specs.State.{open_head};
ghost use Rattle.state_bytes.specs.StateBytes.{state_length, head_of, head_from, state_in, with_head_bytes, bytes_after, new_number, new_bytes, value_of};

pub use numbers::put_numbers;
use slot_calls::states;
use slots::{Answer, Head, Outcome, Reason, State};

// The bytes of a state.
const STATE_LEN: usize = 272;

// The state that the bytes stand for.
pub fn state_in(bytes: &[u8]) -> State
    ensures { result ≡ state_in bytes.now }
{
    if bytes.len() < STATE_LEN {
        let refused = slot_calls::new(0, 0);
        return refused.state;
    }
    whole_state(bytes)
}

fn whole_state(bytes: &[u8]) -> State
    requires { state_length ≤ length bytes.now }
    ensures { result ≡ state_in bytes.now }
{
    State {
        slots: numbers::number_at(bytes, 0),
        blocks: numbers::number_at(bytes, 8),
        heads: [
            head_from(bytes, 16),
            head_from(bytes, 48),
            head_from(bytes, 80),
            head_from(bytes, 112),
            head_from(bytes, 144),
            head_from(bytes, 176),
            head_from(bytes, 208),
            head_from(bytes, 240),
        ],
    }
}

// The head whose bytes begin at `at`.
fn head_from(bytes: &[u8], at: usize) -> Head
    requires { at + 32 ≤ length bytes.now }
    ensures { result ≡ head_from bytes.now at }
{
    let flag = numbers::number_at(bytes, at);
    let terminal = numbers::number_at(bytes, at + 8);
    let size = numbers::number_at(bytes, at + 16);
    let share = numbers::number_at(bytes, at + 24);
    head_of(flag, terminal, size, share)
}

// The head that four numbers are; one that number 13 refuses, where no head has such a flag or terminal.
fn head_of(flag: usize, terminal: usize, size: usize, share: usize) -> Head
    ensures { result ≡ head_of flag terminal size share }
{
    if flag > 1 {
        return no_head();
    }
    match u16::try_from(terminal) {
        Ok(terminal) => Head {
            opened: flag == 1,
            terminal,
            size,
            share,
        },
        Err(_) => no_head(),
    }
}

fn no_head() -> Head
    ensures { result ≡ open_head 0 0 0 }
{
    Head {
        opened: true,
        terminal: 0,
        size: 0,
        share: 0,
    }
}

// The number of an outcome; an accepted one leaves the slot's head in the bytes.
pub fn finish(outcome: Outcome, slot: usize, bytes: &mut [u8]) -> u32
    ensures value { result ≡ number_of (answer_of outcome.answer) }
    ensures bytes_after { bytes.new ≡ bytes_after (told outcome) slot bytes.old }
{
    let answer = outcome.answer;
    let found = number(answer);
    // kept: C is told the number
    if found != 0 {
        return found;
    }
    let state = outcome.state;
    put_head(states::head_at(state, slot), slot, bytes);
    0
}

// The head of a slot over its bytes, where they are a state's and it has such a head.
fn put_head(head: Head, slot: usize, bytes: &mut [u8])
    ensures { bytes.new ≡ with_head_bytes bytes.old slot head }
{
    if bytes.len() < STATE_LEN {
        return;
    }
    if slot > 7 {
        return;
    }
    let from = 16 + 32 * slot;
    let to = from + 32;
    let four = [
        usize::from(head.opened),
        usize::from(head.terminal),
        head.size,
        head.share,
    ];
    put_numbers(&four, &mut bytes[from..to]);
}

// New: S and M over the first 16 bytes, and all heads closed, their numbers 0; 0, 13 with the state of S = 0, or 5, which writes nothing.
pub fn new(s: usize, m: usize, bytes: &mut [u8]) -> u32
    ensures value { result ≡ new_number s m (length bytes.old) }
    ensures bytes_after { bytes.new ≡ new_bytes s m bytes.old }
{
    if bytes.len() < STATE_LEN {
        return 5;
    }
    let outcome = slot_calls::new(s, m);
    let state = outcome.state;
    let mut all = [0usize; 34];
    all[0] = state.slots;
    all[1] = state.blocks;
    put_numbers(&all, &mut bytes[..STATE_LEN]);
    let answer = outcome.answer;
    number(answer)
}

// 01's number of an answer; the number that comes with it, where one does, in `count`.
pub fn tell(answer: Answer, count: &mut usize) -> u32
    ensures value { result ≡ number_of (answer_of answer) }
    ensures count_after { count.new ≡ value_of (answer_of answer) count.old }
{
    *count = value(answer, *count);
    number(answer)
}

// The number of an answer.
pub fn number(answer: Answer) -> u32
    ensures { result ≡ number_of (answer_of answer) }
{
    match answer {
        Ok(_) => 0,
        Err(Reason::Rule(refusal)) => u8::from(refusal) as u32,
        Err(Reason::Lacking(_)) => 11,
        Err(Reason::WrongCodeBlock(_)) => 16,
    }
}

// The number that comes with an answer, where one does; else what stood there before.
#[tactic(auto, unfolding(crate::specs::StateBytes::value_of, slots::specs::Answers::values_of))]
fn value(answer: Answer, before: usize) -> usize
    ensures { result ≡ value_of (answer_of answer) before }
{
    match answer {
        Ok(None) => before,
        Ok(Some(lacking)) => lacking,
        Err(Reason::Rule(_)) => before,
        Err(Reason::Lacking(places)) => places,
        Err(Reason::WrongCodeBlock(block)) => block,
    }
}
