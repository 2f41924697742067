// A line of the yard's log that changes the form of every room: which one asks for it, and the row that answers.
ghost use Rattle.std.specs.Prelude.{◌≡◌, length};
ghost use Rattle.lines.specs.Put.{put_at};
ghost use Rattle.form_changes.specs.Change.{plain_changed, packed_changed};
ghost use Rattle.form_changes.specs.Line.{change_of, change_row, change_made};

use crate::{FormStep, change_form};
use requests::Verb;
use slots::State;

// The form that a line with this verb asks for, if it asks for one: whether four places a byte.
#[tactic(auto, unfolding(crate::specs::Line::change_of))]
pub fn change_of(verb: Verb) -> Option<bool>
    ensures { result ≡ change_of verb }
{
    match verb {
        Verb::Pack => Some(true),
        Verb::Unpack => Some(false),
        _ => None,
    }
}

// Changes the form of every room, and puts the row that answers at the start of out.
#[tactic(auto, using(refusals::proofs::Numbers::refusal_ne0), unfolding(crate::specs::Line::change_made, crate::specs::Line::change_row, crate::specs::Line::form_after))]
pub fn change_line(
    state: State,
    four: bool,
    to: bool,
    plain: &mut [u8],
    packed: &mut [u8],
    out: &mut [u8],
) -> FormStep
    ensures value { result ≡ change_made state four to (length plain.old) (length packed.old) out.old }
    ensures plain_after { plain.new ≡ plain_changed state four to plain.old packed.old }
    ensures packed_after { packed.new ≡ packed_changed state four to plain.old packed.old }
    ensures out_after { out.new ≡ put_at 0 (change_row state (length plain.old) (length packed.old)) out.old }
{
    match change_form(state, four, to, plain, packed) {
        Ok(()) => FormStep {
            four: to,
            written: answers::put_answer(Ok(None), out),
        },
        Err(refusal) => FormStep {
            four,
            written: answers::put_refused(refusal, out),
        },
    }
}
