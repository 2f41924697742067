// The call Receive of 01, for an uplink and, with a circle that is cut, for a downlink (02).
// kept: state, slot, terminal, size and store one by one, as the rules list a call's arguments and the definitions take them: a struct would be taken apart in each contract.
#![tactic(auto)]

mod code_blocks;
mod packed;
mod parts;
mod sent;
mod turns;

ghost use Rattle.std.specs.Prelude.{◌≡◌, true, length, IfOk};
ghost use Rattle.refusals.specs.Refusals.{number_in, first_of};
ghost use Rattle.slots.specs.Outcome.{answer_of, told};
ghost use Rattle.slots.specs.Room.{agreeing, room_at, with_room};
ghost use Rattle.slots.specs.Reception.{received};
ghost use Rattle.slots.specs.Reading.{lacking};
ghost use Rattle.slots.specs.Calls.{receive_store, receive_outcome};
ghost use Rattle.packing.specs.Store.{places_in, in_form};
ghost use Rattle.codeword.specs.Shares.{grant};
ghost use Rattle.reception.specs.inner.Parts.{grant_rules, answer_by, store_by, InSlot};

use codeword::Grant;
use refusals::{Refusal, applied, or_else};
use slot_calls::states;
use slots::{Answer, Head, Outcome, State};

// Puts a reception's bits at the places the build would have taken them from, and tells how many data places then lack a bit. The bits are looked through before
// the state: a state that was just put together from a caller's bytes has settled by then, and is read without a wait.
pub fn receive(
    state: State,
    slot: usize,
    terminal: u16,
    q: usize,
    n: usize,
    version: usize,
    bits: &[u8],
    store: &mut [u8],
) -> Outcome
    ensures answer { told result ≡ receive_outcome state slot terminal q n version bits.now store.old }
    ensures stored { store.new ≡ receive_store state slot terminal q n version bits.now store.old }
{
    let bad = codeword::bad_bits(bits);
    let owner = states::owner(state, store.len(), slot, terminal);
    let grant = granted(q, n, version, bits);
    let answer = receive_by(
        false,
        owner.admitted,
        bad,
        state.blocks,
        slot,
        grant,
        bits,
        store,
    );
    Outcome { answer, state }
}

// The same for a store with four places a byte: the answer and the places afterwards are those of the store as it is unpacked.
pub fn receive_packed(
    state: State,
    slot: usize,
    terminal: u16,
    q: usize,
    n: usize,
    version: usize,
    bits: &[u8],
    store: &mut [u8],
) -> Outcome
    ensures answer { told result ≡ receive_outcome state slot terminal q n version bits.now (places_in true store.old) }
    ensures stored { store.new
        ≡ in_form true (receive_store state slot terminal q n version bits.now (places_in true store.old)) }
{
    let bad = codeword::bad_bits(bits);
    let asked = packing::places_asked(true, store.len());
    let owner = states::owner(state, asked, slot, terminal);
    let grant = granted(q, n, version, bits);
    let answer = receive_by(
        true,
        owner.admitted,
        bad,
        state.blocks,
        slot,
        grant,
        bits,
        store,
    );
    Outcome { answer, state }
}

// The grant that these bits came by.
fn granted(q: usize, n: usize, version: usize, bits: &[u8]) -> Grant
    ensures { result ≡ grant q n version (length bits.now) }
{
    Grant {
        modulation: q,
        layers: n,
        version,
        bits: bits.len(),
    }
}

// The answer by what the owner's rules gave and whether a byte among the bits is no bit, for a store of either form whose rooms have so many code blocks. The
// state itself is not handed on: all of it would be copied.
// kept: the form is a flag, as in packing's functions and in the definitions (`places_in`); a type for each form would need a trait to say the same.
fn receive_by(
    four: bool,
    owner: Result<Head, Refusal>,
    bad: bool,
    blocks: usize,
    slot: usize,
    grant: Grant,
    bits: &[u8],
    store: &mut [u8],
) -> Answer
    requires { IfOk owner (λ head. first_of (grant_rules head.size grant bad) ≡ 0
        → InSlot blocks slot head.size head.share grant bits.now (length (places_in four store.old))) }
    ensures answer { answer_of result ≡ answer_by owner bad blocks slot grant bits.now (places_in four store.old) }
    ensures stored { store.new ≡ store_by four owner bad blocks slot grant bits.now store.old }
{
    let head = owner?;
    admitted(head.size, grant, bad)?;
    let lacking = put_in_slot(four, blocks, slot, head, grant, bits, store);
    Ok(Some(lacking))
}

// Receive's refusals in 01's order after those of the state, the store and the owner, for a block of `size` bits. All are looked for before a bit is put.
fn admitted(size: usize, grant: Grant, bad: bool) -> Result<(), Refusal>
    ensures { number_in result ≡ first_of (grant_rules size grant bad) }
{
    let blocks = states::block_count(size);
    let misfits = codeword::bad_allocation(blocks, grant.modulation, grant.layers, grant.bits);
    let allocated = applied(misfits, Refusal::BadAllocation);
    let versioned = or_else(allocated, grant.version > 3, Refusal::BadVersion);
    or_else(versioned, bad, Refusal::BadBit)
}

// Puts the bits in a slot's room for so many code blocks, in a store of either form, and counts the data places of its block that then lack one.
fn put_in_slot(
    four: bool,
    blocks: usize,
    slot: usize,
    head: Head,
    grant: Grant,
    bits: &[u8],
    store: &mut [u8],
) -> usize
    requires { InSlot blocks slot head.size head.share grant bits.now (length (places_in four store.old)) }
    ensures stored { places_in four store.new
        ≡ with_room blocks slot (received agreeing head.share head.size grant bits.now (room_at blocks slot (places_in four store.old))) (places_in four store.old) }
    ensures count { result ≡ lacking head.size (room_at blocks slot (places_in four store.new)) }
{
    let room = blocks * packing::bytes_a_block(four);
    let from = slot * room;
    let to = from + room;
    code_blocks::put_blocks(
        four,
        head.size,
        head.share,
        grant,
        bits,
        &mut store[from..to],
    )
}
