// Every room of a state changes its form, from one of two stores into the other (02, E7), and the line of the yard's log that asks for it is answered.
// kept: the two stores and the output one by one: each is lent for itself, and what it holds afterwards is a clause of its own.
#![tactic(auto)]

mod line;

ghost use Rattle.std.specs.Prelude.{◌≡◌, cond, not, true, false, ◌*◌, ◌≤◌, length};
ghost use Rattle.refusals.specs.Refusals.{number_in};
ghost use Rattle.forms.specs.Change.{room_in, room_changed, rooms_changed};
ghost use Rattle.form_changes.specs.Change.{form_number, plain_changed, packed_changed};

pub use line::{change_line, change_of};
use packing::PACKED_PER_BLOCK;
use refusals::Refusal;
use slot_calls::states::PER_BLOCK;
use slots::State;

// The form of the rooms after such a line, and the length of the row that answers it.
// kept: the form is a flag with no value of its own beside it, as in packing's functions and in the definitions.
#[derive(Clone, Copy)]
pub struct FormStep {
    pub four: bool,
    pub written: usize,
}

// Brings the rooms, in the packed store where they have `four` places a byte and else in the plain one, into the form `to`. A refusal writes nothing.
#[tactic(auto, using(refusals::proofs::Numbers::refusal_ne0), unfolding(crate::specs::Change::plain_changed, crate::specs::Change::packed_changed))]
fn change_form(
    state: State,
    four: bool,
    to: bool,
    plain: &mut [u8],
    packed: &mut [u8],
) -> Result<(), Refusal>
    ensures value { number_in result ≡ form_number state (length plain.old) (length packed.old) }
    ensures plain_after { plain.new ≡ plain_changed state four to plain.old packed.old }
    ensures packed_after { packed.new ≡ packed_changed state four to plain.old packed.old }
{
    accept(state, plain.len(), packed.len())?;
    move_rooms(state, four, to, plain, packed);
    Ok(())
}

// M out of range is refused, then rooms that do not fit into a plain store or a packed one of so many bytes.
#[tactic(auto, using(crate::proofs::Changed::none_number, crate::proofs::Changed::many_number, crate::proofs::Changed::plain_short, crate::proofs::Changed::packed_short, crate::proofs::Changed::both_fit))]
fn accept(state: State, plain: usize, packed: usize) -> Result<(), Refusal>
    ensures { number_in result ≡ form_number state plain packed }
{
    let m = state.blocks;
    if m == 0 {
        return Err(Refusal::BadState);
    }
    if m > 5 {
        return Err(Refusal::BadState);
    }
    if plain / (m * PER_BLOCK) < state.slots {
        return Err(Refusal::TooShort);
    }
    if packed / (m * PACKED_PER_BLOCK) < state.slots {
        return Err(Refusal::TooShort);
    }
    Ok(())
}

// The rooms from the one store into the other, where they have not the form already.
#[tactic(auto, using(crate::proofs::Changed::rooms_fit))]
fn move_rooms(state: State, four: bool, to: bool, plain: &mut [u8], packed: &mut [u8])
    requires { form_number state (length plain.old) (length packed.old) ≡ 0 }
    ensures plain_after { plain.new ≡ cond to plain.old (cond four (rooms_changed false state.blocks state.slots packed.old plain.old) plain.old) }
    ensures packed_after { packed.new ≡ cond to (cond four packed.old (rooms_changed true state.blocks state.slots plain.old packed.old)) packed.old }
{
    let m = state.blocks;
    let n = state.slots;
    match (four, to) {
        (false, true) => change_rooms(true, m, n, plain, packed),
        (true, false) => change_rooms(false, m, n, packed, plain),
        _ => {}
    }
}

// Brings n rooms for m code blocks into a form, from the other one, one after another.
fn change_rooms(four: bool, m: usize, n: usize, from: &[u8], to: &mut [u8])
    requires m_bound { m ≤ 5 }
    requires m_in_bounds { (n * room_in (not four) m ≤ length from.now) × (n * room_in four m ≤ length to.old) }
    ensures { to.new ≡ rooms_changed four m n from.now to.old }
{
    let read = m * packing::bytes_a_block(!four);
    let written = m * packing::bytes_a_block(four);
    let mut i = 0;
    let mut j = 0;
    for room in 0..n {
        let i_end = i + read;
        let j_end = j + written;
        change_room(four, m, &from[i..i_end], &mut to[j..j_end]);
        i = i_end;
        j = j_end;
    }
}

// Brings one room into a form, from the other one.
#[tactic(auto, unfolding(forms::specs::Change::room_changed))]
fn change_room(four: bool, m: usize, from: &[u8], to: &mut [u8])
    ensures { to.new ≡ room_changed four m from.now to.old }
{
    // A refused room would stay as it is.
    let _ = if four {
        packing::pack_room(m, from, to)
    } else {
        packing::unpack_room(m, from, to)
    };
}
