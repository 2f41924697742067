// The verbs of a log: the word of each, and what follows it.
ghost use Rattle.std.specs.Prelude.{◌≡◌, ◌≤◌, IfSome};
ghost use Rattle.requests.specs.Verbs.{verb_of, stateless, form, form_of};

use crate::{Form, Verb};

// The verb that a word names.
#[tactic(auto, using(crate::proofs::Forms::same_is), unfolding(crate::specs::Verbs::verb_of))]
pub(crate) fn verb_of(word: &[u8]) -> Verb
    ensures { result ≡ verb_of word.now }
{
    if word == b"new".as_slice() {
        Verb::New
    } else if word == b"open".as_slice() {
        Verb::Open
    } else if word == b"open-down".as_slice() {
        Verb::OpenDown
    } else if word == b"close".as_slice() {
        Verb::Close
    } else if word == b"receive".as_slice() {
        Verb::Receive
    } else if word == b"read".as_slice() {
        Verb::Read
    } else if word == b"streams".as_slice() {
        Verb::Streams
    } else if word == b"pack".as_slice() {
        Verb::Pack
    } else if word == b"unpack".as_slice() {
        Verb::Unpack
    } else {
        stateless(word)
    }
}

// The verb of a call without a state.
#[tactic(auto, using(crate::proofs::Forms::same_is), unfolding(crate::specs::Verbs::stateless))]
fn stateless(word: &[u8]) -> Verb
    ensures { result ≡ stateless word.now }
{
    if word == b"build".as_slice() {
        Verb::Build
    } else if word == b"build-down".as_slice() {
        Verb::BuildDown
    } else if word == b"sizes".as_slice() {
        Verb::Sizes
    } else if word == b"worst".as_slice() {
        Verb::Worst
    } else {
        Verb::Unreadable
    }
}

// What follows a verb, where it is one of a call.
#[tactic(auto, unfolding(crate::specs::Verbs::form_of))]
pub(crate) fn form_of(verb: Verb) -> Option<Form>
    ensures value { result ≡ form_of verb }
    ensures few { IfSome result (λ f. f.numbers ≤ 9) }
{
    match verb {
        Verb::New => form(2, false, None, false),
        Verb::Open => form(3, true, None, false),
        Verb::OpenDown => form(8, true, Some(7), false),
        Verb::Close => form(2, true, None, false),
        Verb::Receive => form(5, true, None, true),
        Verb::Read => form(2, true, None, false),
        Verb::Streams => form(3, true, None, false),
        Verb::Build => form(4, false, None, true),
        Verb::BuildDown => form(9, false, Some(4), true),
        Verb::Sizes => form(1, false, None, false),
        Verb::Worst => form(3, false, None, false),
        Verb::Pack | Verb::Unpack => form(0, false, None, false),
        Verb::Nothing | Verb::Unreadable => None,
    }
}

fn form(numbers: usize, terminal: bool, soft: Option<usize>, bits: bool) -> Option<Form>
    ensures { result ≡ form numbers terminal soft bits }
{
    Some(Form {
        numbers,
        terminal,
        soft,
        bits,
    })
}
