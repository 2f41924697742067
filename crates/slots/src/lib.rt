// The slots of 01: a state by value, and a store of rooms that the caller lends.
#![tactic(auto)]

ghost use Rattle.std.specs.Prelude.{◌≡◌};
ghost use Rattle.slots.specs.declared.Reason.TheVariants.{Rule};

use refusals::Refusal;

// A slot's head: closed, or open for a terminal with a block of `size` bits (A), each code block having `share` places of the soft buffer:
// 18,528 in an uplink, the floor of N_IR / C in a downlink, 0 in a closed head.
// kept: a flag beside its values, since they are the four numbers that C keeps of a head (`head_of` of state_bytes), and the edit close_keeps_size speaks of a closed head's size.
#[derive(Clone, Copy, Default)]
pub struct Head {
    pub opened: bool,
    pub terminal: u16,
    pub size: usize,
    pub share: usize,
}

// S slots, each for M code blocks; heads from S upward are ignored.
#[derive(Clone, Copy)]
pub struct State {
    pub slots: usize,
    pub blocks: usize,
    pub heads: [Head; 8],
}

// Why a call is refused: by a rule, or for what the room holds, with the number that comes with it.
#[derive(Clone, Copy)]
pub enum Reason {
    Rule(Refusal),
    // 11: so many data places lack a bit
    Lacking(usize),
    // 16: the check of this code block is the first that is wrong
    WrongCodeBlock(usize),
}

impl From<Refusal> for Reason {
    ghost from_gives = { λ refusal reason. reason ≡ Rule refusal };

    fn from(refusal: Refusal) -> Reason {
        Reason::Rule(refusal)
    }
}

// What a call answers: accepted, and after a reception how many data places still lack a bit, or why it is refused.
pub type Answer = Result<Option<usize>, Reason>;

// An answer and the state to hand to the next call.
#[derive(Clone, Copy)]
pub struct Outcome {
    pub answer: Answer,
    pub state: State,
}
