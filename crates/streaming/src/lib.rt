// The call Streams of 01, on rooms of either form.
// kept: state, slot, terminal, size and store one by one, as the rules list a call's arguments and the definitions take them: a struct would be taken apart in each contract.
#![tactic(auto)]

ghost use Rattle.std.specs.Prelude.{◌≡◌, true, ◌++◌, ◌*◌, ◌≤◌, length, drop};
ghost use Rattle.slots.specs.Outcome.{answer_of, told};
ghost use Rattle.slots.specs.State.{per_block};
ghost use Rattle.slots.specs.Room.{circle_at};
ghost use Rattle.slots.specs.Circle.{streams_on};
ghost use Rattle.slots.specs.Calls.{streams_outcome, streams_output};
ghost use Rattle.packing.specs.Store.{places_in};
ghost use Rattle.kept_bits.specs.inner.Rows.{Stretch};
ghost use Rattle.reading.specs.inner.Form.{HasCircle};

use refusals::{Refusal, applied};
use segmentation::block;
use slot_calls::states;
use slot_calls::states::PER_BLOCK;
use slots::{Answer, Outcome, State};

// Writes the three runs of code block i of a store over the front of `out`, of streams of d places, the first f being filler.
fn runs_of(four: bool, i: usize, d: usize, f: usize, store: &[u8], out: &mut [u8])
    requires { HasCircle four i store.now × (f ≤ d) × (3 * d ≤ length out.old) × Stretch per_block d 2 0 d }
    ensures { out.new ≡ streams_on (circle_at i (places_in four store.now)) d f ++ drop (3 * d) out.old }
{
    if four {
        packed_runs_of(i, d, f, store, out);
        return;
    }
    let long = packing::bytes_a_block(four);
    let from = i * long;
    let to = from + long;
    kept_bits::three_streams(&store[from..to], d, f, out);
}

// The same of a store that keeps four places a byte: the circle is unpacked in an array, 96 places a row, 24 bytes. Never a part of its caller, on whose stack
// plain Streams would have the array too.
#[inline(never)]
fn packed_runs_of(i: usize, d: usize, f: usize, store: &[u8], out: &mut [u8])
    requires { HasCircle true i store.now × (f ≤ d) × (3 * d ≤ length out.old) × Stretch per_block d 2 0 d }
    ensures { out.new ≡ streams_on (circle_at i (places_in true store.now)) d f ++ drop (3 * d) out.old }
{
    let mut circle = [0u8; PER_BLOCK];
    let from = i * packing::bytes_a_block(true);
    let to = from + 24 * ((d + 31) / 32);
    packing::unpack_places(&store[from..to], &mut circle);
    kept_bits::three_streams(&circle, d, f, out);
}

// Writes the three streams of a code block over the front of `out`, for the decoder chip.
#[tactic(auto, using(crate::proofs::Answering::streams_kept), unfolding(packing::specs::Store::places_in))]
pub fn streams(
    state: State,
    slot: usize,
    terminal: u16,
    block: usize,
    store: &[u8],
    out: &mut [u8],
) -> Outcome
    ensures value { told result ≡ streams_outcome state (length store.now) slot terminal block (length out.old) }
    ensures out_after { out.new ≡ streams_output state store.now slot terminal block out.old }
{
    let answer = streams_form(false, state, slot, terminal, block, store, out);
    Outcome { answer, state }
}

// The same for a store with four places a byte.
#[tactic(auto, using(crate::proofs::Answering::streams_kept))]
pub fn streams_packed(
    state: State,
    slot: usize,
    terminal: u16,
    block: usize,
    store: &[u8],
    out: &mut [u8],
) -> Outcome
    ensures value { told result ≡ streams_outcome state (length (places_in true store.now)) slot terminal block (length out.old) }
    ensures out_after { out.new ≡ streams_output state (places_in true store.now) slot terminal block out.old }
{
    let answer = streams_form(true, state, slot, terminal, block, store, out);
    Outcome { answer, state }
}

// Its answer for a store of either form. The state stays as it came, and is not handed back with it: all of it would be copied.
// kept: the form is a flag, as in packing's functions and in the definitions (`places_in`); a type for each form would need a trait to say the same.
fn streams_form(
    four: bool,
    state: State,
    slot: usize,
    terminal: u16,
    block: usize,
    store: &[u8],
    out: &mut [u8],
) -> Answer
    ensures value { answer_of result ≡ (streams_outcome state (length (places_in four store.now)) slot terminal block (length out.old)).answer }
    ensures out_after { out.new ≡ streams_output state (places_in four store.now) slot terminal block out.old }
{
    let asked = packing::places_asked(four, store.len());
    let owner = states::owner(state, asked, slot, terminal);
    let head = owner.admitted?;
    let s = segmentation::segments_for(head.size);
    applied(block >= s.blocks, Refusal::NoCodeBlock)?;
    let d = block::size_of(s, block) + 4;
    applied(out.len() < 3 * d, Refusal::TooShort)?;
    let i = slot * state.blocks + block;
    runs_of(four, i, d, block::filler_of(s, block), store, out);
    Ok(None)
}
