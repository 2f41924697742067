// What a room keeps, lent by itself.
ghost use Rattle.std.specs.Prelude.{◌≡◌, true, cond, ◌&&◌, ◌||◌, ◌+◌, ◌≤◌, ◌<◌, eqb, length, take};
ghost use Rattle.check_bits.specs.CheckBits.{crc, g_crc24b};
ghost use Rattle.slots.specs.State.{per_block};
ghost use Rattle.slots.specs.Room.{circle_at};
ghost use Rattle.slots.specs.Circle.{heard_on};
ghost use Rattle.slots.specs.Outcome.{answer_of};
ghost use Rattle.slots.specs.Reading.{heard_sequence, heard_answer};
ghost use Rattle.packing.specs.Store.{places_in};
ghost use Rattle.kept_bits.specs.inner.Rows.{Stretch};
ghost use Rattle.reading.specs.inner.Form.{HasCircle};
ghost use Rattle.reading.specs.inner.Room.{room_fits, blocks_heard, room_output};

use packing::{bytes_a_block, unpack_places};
use rate_matching::StreamPlace;
use refusals::{Refusal, applied};
use segmentation::{Segments, block};
use slots::{Answer, Reason};

// The most places of a stream 0: 193 rows.
const STREAM_MOST: usize = 6176;

// L: each of several code blocks ends in 24 check bits of its own.
fn check_length(s: Segments) -> usize
    ensures { result ≡ cond (eqb s.blocks 1) 0 24 }
{
    if s.blocks == 1 { 0 } else { 24 }
}

// How many code blocks are right before the first wrong one, after code block r: one more where all before it are right and its `bits`, check
// bits among them, leave nothing; its filler in front would change no remainder. A single code block has no check of its own (`check` = 0),
// and where a bit lacks nobody asks.
#[tactic(auto, using(check_bits::proofs::Register::from_zero))]
fn right_after(lacking: usize, check: usize, right: usize, r: usize, bits: &[u8]) -> usize
    requires { r < 5 }
    ensures { result ≡ cond (eqb lacking 0 && (eqb right r && (eqb check 0 || eqb (crc 24 g_crc24b bits.now) 0))) (r + 1) right }
{
    let passed = lacking == 0 && right == r && (check == 0 || check_bits::crc24b(0, bits) == 0);
    if passed { r + 1 } else { right }
}

// Fills `out` with what the circle of code block r keeps for the places of stream 0 from `f` on, of streams of k + 4 places.
fn read_data(four: bool, r: usize, k: usize, f: usize, room: &[u8], out: &mut [u8])
    requires { HasCircle four r room.now × Stretch per_block (k + 4) 0 f (length out.old) }
    ensures { out.new ≡ heard_on (circle_at r (places_in four room.now)) k f (length out.old) }
{
    if four {
        read_packed_data(r, k, f, room, out);
        return;
    }
    let long = bytes_a_block(four);
    let from = r * long;
    let to = from + long;
    kept_bits::read_stream(&room[from..to], k + 4, StreamPlace(0, f), out);
}

// The same of a room that keeps four places a byte: the first places of the circle are unpacked in an array, stream 0's, 32 a row, 8 bytes. Never a part of
// its caller, on whose stack a plain Read would have the array too.
#[inline(never)]
fn read_packed_data(r: usize, k: usize, f: usize, room: &[u8], out: &mut [u8])
    requires { HasCircle true r room.now × Stretch per_block (k + 4) 0 f (length out.old) }
    ensures { out.new ≡ heard_on (circle_at r (places_in true room.now)) k f (length out.old) }
{
    let mut circle = [0u8; STREAM_MOST];
    let from = r * bytes_a_block(true);
    let to = from + 8 * ((k + 35) / 32);
    unpack_places(&room[from..to], &mut circle);
    kept_bits::read_stream(&circle, k + 4, StreamPlace(0, f), out);
}

// Puts the sequence as it was heard, the block and its transport check, over the front of `b`, and tells what lacks and, where nothing does, which code block
// is the first wrong one. Each code block's check bits are read, counted and compared too; the next code block is put over them.
fn collect(four: bool, a: usize, room: &[u8], b: &mut [u8]) -> Result<(), Reason>
    requires { (room_fits a (length (places_in four room.now)) ≡ true) × (a + 48 ≤ length b.old) }
    ensures heard { result ≡ blocks_heard a (places_in four room.now) }
    ensures sequence { take (a + 24) b.new ≡ heard_sequence a (places_in four room.now) }
{
    let s = segmentation::segments_for(a);
    let check = check_length(s);
    let mut lacking = 0;
    let mut right = 0;
    let mut at = 0;
    for r in 0..s.blocks {
        let k = block::size_of(s, r);
        let f = block::filler_of(s, r);
        let end = at + (k - f);
        read_data(four, r, k, f, room, &mut b[at..end]);
        lacking += kept_bits::count_missing(&b[at..end]);
        right = right_after(lacking, check, right, r, &b[at..end]);
        at = end - check;
    }
    if lacking != 0 {
        return Err(Reason::Lacking(lacking));
    }
    if right < s.blocks {
        return Err(Reason::WrongCodeBlock(right));
    }
    Ok(())
}

// What Read answers for a room, and the block of `a` bits over the front of `out` where it is released. The sequence is put together in
// `b`, so that a wrong one leaves `out` as it was.
fn release(four: bool, a: usize, room: &[u8], b: &mut [u8], out: &mut [u8]) -> Answer
    requires { (room_fits a (length (places_in four room.now)) ≡ true) × (a + 48 ≤ length b.old) × (a ≤ length out.old) }
    ensures value { answer_of result ≡ heard_answer a (places_in four room.now) }
    ensures out_after { out.new ≡ room_output a (places_in four room.now) out.old }
{
    collect(four, a, room, b)?;
    let end = a + 24;
    applied(check_bits::crc24a(0, &b[..end]) != 0, Refusal::WrongCheck)?;
    out[..a].copy_from_slice(&b[..a]);
    Ok(None)
}

// The same, with an array of B bytes for the sequence.
fn read_with<const B: usize>(four: bool, a: usize, room: &[u8], out: &mut [u8]) -> Answer
    requires { (room_fits a (length (places_in four room.now)) ≡ true) × (a + 48 ≤ B) × (B ≤ 30624) × (a ≤ length out.old) }
    ensures value { answer_of result ≡ heard_answer a (places_in four room.now) }
    ensures out_after { out.new ≡ room_output a (places_in four room.now) out.old }
{
    let mut b = [0u8; B];
    release(four, a, room, &mut b, out)
}

// The same. All of an array is cleared when it is made, so there are three sizes: for a K of up to 1,024, for one code block, and for several.
pub(crate) fn read_room(four: bool, a: usize, room: &[u8], out: &mut [u8]) -> Answer
    requires { (room_fits a (length (places_in four room.now)) ≡ true) × (a ≤ length out.old) }
    ensures value { answer_of result ≡ heard_answer a (places_in four room.now) }
    ensures out_after { out.new ≡ room_output a (places_in four room.now) out.old }
{
    if a <= 1000 {
        read_with::<1048>(four, a, room, out)
    } else if a <= 6120 {
        read_with::<6168>(four, a, room, out)
    } else {
        read_with::<30624>(four, a, room, out)
    }
}
