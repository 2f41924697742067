// What can be wrong with a call, the number given back for each, and refusals in order: a chain of or_else gives the first that applies.
#![tactic(auto)]

ghost use Rattle.std.specs.Prelude.{◌≡◌, cond};
ghost use Rattle.refusals.specs.Refusals.{or_else, number_of, number_in};

// A refusal, in the order of the numbers. (11 and 16, which bring a number with them, are those of the slots.)
#[derive(Clone, Copy)]
pub enum Refusal {
    // the block's length A is out of range
    BadLength,
    // a byte among the bits is neither 0 nor 1
    BadBit,
    // Q, N or the number of bits does not fit
    BadAllocation,
    BadVersion,
    // a store or an output is too short
    TooShort,
    NoSlot,
    OpenAlready,
    Closed,
    OtherTerminal,
    // A needs more code blocks than a slot has
    TooManyBlocks,
    // the transport check is wrong
    WrongCheck,
    BadState,
    NoCodeBlock,
    // a program's line can't be read
    Unreadable,
    BadReport,
    BadControl,
    // two or more reports are as near as each other
    Tied,
    BadPayload,
    BadReceiver,
}

impl From<Refusal> for u8 {
    ghost from_gives = { λ refusal number. number ≡ number_of refusal };

    fn from(refusal: Refusal) -> u8 {
        match refusal {
            Refusal::BadLength => 1,
            Refusal::BadBit => 2,
            Refusal::BadAllocation => 3,
            Refusal::BadVersion => 4,
            Refusal::TooShort => 5,
            Refusal::NoSlot => 6,
            Refusal::OpenAlready => 7,
            Refusal::Closed => 8,
            Refusal::OtherTerminal => 9,
            Refusal::TooManyBlocks => 10,
            Refusal::WrongCheck => 12,
            Refusal::BadState => 13,
            Refusal::NoCodeBlock => 14,
            Refusal::Unreadable => 15,
            Refusal::BadReport => 17,
            Refusal::BadControl => 18,
            Refusal::Tied => 19,
            Refusal::BadPayload => 20,
            Refusal::BadReceiver => 21,
        }
    }
}

// The number given back: 0 where the call is accepted.
pub fn number<T: Drop>(answer: Result<T, Refusal>) -> u8
    ensures { result ≡ number_in answer }
{
    match answer {
        Ok(_) => 0,
        Err(refusal) => u8::from(refusal),
    }
}

// The refusal where its rule applies.
pub fn applied(bad: bool, refusal: Refusal) -> Result<(), Refusal>
    ensures { number_in result ≡ cond bad (number_of refusal) 0 }
{
    if bad { Err(refusal) } else { Ok(()) }
}

// What an earlier rule found, else this refusal where its rule applies. (Where a rule may be asked only if none before it applies, `?` asks them one after another.)
#[tactic(auto, using(crate::proofs::Numbers::refusal_ne0), unfolding(crate::specs::Refusals::or_else))]
pub fn or_else(found: Result<(), Refusal>, bad: bool, refusal: Refusal) -> Result<(), Refusal>
    ensures { number_in result ≡ or_else (number_in found) bad (number_of refusal) }
{
    match found {
        Err(earlier) => Err(earlier),
        Ok(()) => applied(bad, refusal),
    }
}
