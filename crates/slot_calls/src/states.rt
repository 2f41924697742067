// What every call asks of a state and a store before anything else.
ghost use Rattle.std.specs.Prelude.{◌≡◌, false, cond, not, ◌||◌, [], ◌∷◌, ◌+◌, ◌≤◌, ◌<◌, eqb, ltb, IfOk};
ghost use Rattle.refusals.specs.Refusals.{number_in, rule, first_of};
ghost use Rattle.segmentation.specs.Segmentation.{blocks};
ghost use Rattle.segmentation.specs.Sizes.{bad_size};
ghost use Rattle.codeword.specs.Downlink.{too_short};
ghost use Rattle.slots.specs.State.{room_length, room_start, head_at, too_many, broken, bad_shape, bad_state};
ghost use Rattle.slots.specs.Calls.{store_rules, with_head};
ghost use Rattle.slot_calls.specs.Owner.{admitted_by, owner_of};

use crate::Owner;
use refusals::{Refusal, applied, or_else};
use slots::{Head, State};

// The bytes that a room has for one code block, the largest circle.
pub const PER_BLOCK: usize = 18528;

// The share that is long enough for every code block, 32·193.
const MOST_NEEDED: usize = 6176;

// The length of a room for M code blocks.
pub(crate) fn room_length(m: usize) -> usize
    requires { m ≤ 5 }
    ensures { result ≡ room_length m }
{
    m * PER_BLOCK
}

// Where the room of a slot starts; for S itself, where the rooms end.
pub(crate) fn room_start(m: usize, slot: usize) -> usize
    requires { (m ≤ 5) × (slot ≤ 8) }
    ensures { result ≡ room_start m slot }
{
    slot * room_length(m)
}

// The head of a slot; a closed one where there is no such slot.
// kept: each is read where it stands: for one at a computed place all eight would be copied first.
pub fn head_at(state: State, slot: usize) -> Head
    ensures { result ≡ head_at state slot }
{
    match slot {
        0 => state.heads[0],
        1 => state.heads[1],
        2 => state.heads[2],
        3 => state.heads[3],
        4 => state.heads[4],
        5 => state.heads[5],
        6 => state.heads[6],
        7 => state.heads[7],
        _ => Head::default(),
    }
}

// The state with another head for a slot.
pub(crate) fn with_head(state: State, slot: usize, head: Head) -> State
    requires { slot < 8 }
    ensures { result ≡ with_head state slot head }
{
    let mut after = state;
    after.heads[slot] = head;
    after
}

// The number of code blocks of a block of `a` bits, the ceiling of (a + 24) / 6,120 above one block, with no sum that could wrap.
pub fn block_count(a: usize) -> usize
    ensures { result ≡ blocks (a + 24) }
{
    if a <= 6120 { 1 } else { (a - 6097) / 6120 + 2 }
}

// Outside 1 to `most`.
// kept: `!(1..=most).contains(&x)` is longer, and says less of which end is asked first.
fn outside(x: usize, most: usize) -> bool
    ensures { result ≡ (eqb x 0 || ltb most x) }
{
    x == 0 || x > most
}

// A outside its range.
pub(crate) fn bad_size(a: usize) -> bool
    ensures { result ≡ bad_size a }
{
    outside(a, 30576)
}

// A needs more than M code blocks.
pub(crate) fn too_many(m: usize, a: usize) -> bool
    ensures { result ≡ too_many m a }
{
    m < block_count(a)
}

// S or M out of range.
pub(crate) fn bad_shape(s: usize, m: usize) -> bool
    ensures { result ≡ bad_shape s m }
{
    outside(s, 8) || outside(m, 5)
}

// An N_cb below 32·R for one of the code blocks: the longest decides. None has more than 193 rows, so that a long share needs no look at them.
pub(crate) fn too_short(share: usize, a: usize) -> bool
    requires { bad_size a ≡ false }
    ensures { result ≡ too_short share (a + 24) (blocks (a + 24)) }
{
    if share >= MOST_NEEDED {
        return false;
    }
    let s = segmentation::segments_for(a);
    share < 32 * ((s.long + 35) / 32)
}

// An open head whose A is out of range or needs more than M code blocks, or whose share is too short for one of them.
fn bad_head(m: usize, head: Head) -> bool
    ensures { result ≡ broken m head }
{
    head.opened
        && (bad_size(head.size) || (too_many(m, head.size) || too_short(head.share, head.size)))
}

// The head of a slot, a closed one where there is no such slot; 13 where the state is broken. The shape comes first, so that there are heads to look at.
pub(crate) fn look(state: State, slot: usize) -> Result<Head, Refusal>
    ensures number { number_in result ≡ cond (bad_state state) 13 0 }
    ensures head { IfOk result (λ head. head ≡ head_at state slot) }
{
    let s = state.slots;
    let m = state.blocks;
    if bad_shape(s, m) {
        return Err(Refusal::BadState);
    }
    for i in 0..s {
        let next = state.heads[i];
        if bad_head(m, next) {
            return Err(Refusal::BadState);
        }
    }
    Ok(head_at(state, slot))
}

// 13, 5 (store), 6, for a store of `lent` bytes, and the slot's head. The store's length is computed for a good state alone, so that it does not wrap.
pub(crate) fn stored_head(state: State, lent: usize, slot: usize) -> Result<Head, Refusal>
    ensures number { number_in result ≡ first_of (store_rules state lent slot) }
    ensures head { IfOk result (λ head. head ≡ head_at state slot) }
{
    let head = look(state, slot)?;
    let s = state.slots;
    applied(lent < room_start(state.blocks, s), Refusal::TooShort)?;
    let present = slot < s;
    applied(!present, Refusal::NoSlot)?;
    Ok(head)
}

// 8, 9, for a slot that has this head.
pub(crate) fn owned(head: Head, terminal: u16) -> Result<(), Refusal>
    ensures { number_in result ≡ first_of (rule (not head.opened) 8 ∷ rule (not (eqb head.terminal terminal)) 9 ∷ []) }
{
    let opened = applied(!head.opened, Refusal::Closed);
    or_else(opened, head.terminal != terminal, Refusal::OtherTerminal)
}

// What Receive, Read and Streams ask first: 13, 5 (store), 6, 8 and 9, then the slot's head. Always a part of its caller, so that a call that does not look at
// the head of a refused slot does not read it.
#[inline(always)]
#[tactic(auto, unfolding(crate::specs::Owner::owner_of))]
pub fn owner(state: State, lent: usize, slot: usize, terminal: u16) -> Owner
    ensures { result ≡ owner_of state lent slot terminal }
{
    Owner {
        admitted: admitted(state, lent, slot, terminal),
        head: head_at(state, slot),
    }
}

// The rules of the store, then those of the slot's head.
fn admitted(state: State, lent: usize, slot: usize, terminal: u16) -> Result<Head, Refusal>
    ensures { result ≡ admitted_by state lent slot terminal }
{
    let head = stored_head(state, lent, slot)?;
    owned(head, terminal)?;
    Ok(head)
}
