// The code blocks of a reception one after another, on a room with one place a byte or with four: each has its stretch of the bits and its part of the room.
ghost use Rattle.std.specs.Prelude.{◌≡◌, ◌≤◌, length};
ghost use Rattle.laws.specs.Bits.{AreBits};
ghost use Rattle.slots.specs.Room.{agreeing};
ghost use Rattle.slots.specs.Circle.{lacking_on};
ghost use Rattle.slots.specs.Reception.{received};
ghost use Rattle.slots.specs.Reading.{lacking};
ghost use Rattle.packing.specs.Store.{places_in};
ghost use Rattle.reception.specs.inner.Parts.{bytes_a_row, Accepted};
ghost use Rattle.reception.specs.inner.Sent.{OnCircle, part_with};

use crate::sent::Sent;
use crate::{packed, parts};
use codeword::Grant;
use packing::bytes_a_block;

// The places that a short and a long circle have room for.
const SHORT_CIRCLE: usize = 3168;

const LONG_CIRCLE: usize = 18528;

// The bytes that a row of a circle has: 96 places.
#[tactic(auto, unfolding(crate::specs::inner::Parts::bytes_a_row))]
fn bytes_a_row(four: bool) -> usize
    ensures { result ≡ bytes_a_row four }
{
    if four { 24 } else { 96 }
}

// Puts the bits of a code block in `part`, the bytes of its circle, and counts its data places that then lack a bit. A circle with four places a byte is unpacked
// into an array that is long enough.
fn put_part(four: bool, sent: Sent, bits: &[u8], part: &mut [u8]) -> usize
    requires { OnCircle sent (places_in four part.old) × (length (places_in four part.old) ≤ 18528) × AreBits bits.now }
    ensures stored { places_in four part.new ≡ part_with sent bits.now (places_in four part.old) }
    ensures count { result ≡ lacking_on (places_in four part.new) sent.k sent.filler }
{
    if !four {
        parts::put_circle(sent, bits, part)
    } else if 4 * part.len() <= SHORT_CIRCLE {
        packed::put_with::<SHORT_CIRCLE>(sent, bits, part)
    } else {
        packed::put_with::<LONG_CIRCLE>(sent, bits, part)
    }
}

// Puts a reception's bits in a room, and counts the data places that then lack one.
pub(crate) fn put_blocks(
    four: bool,
    a: usize,
    soft: usize,
    grant: Grant,
    bits: &[u8],
    room: &mut [u8],
) -> usize
    requires { Accepted a soft grant bits.now (length (places_in four room.old)) }
    ensures stored { places_in four room.new ≡ received agreeing soft a grant bits.now (places_in four room.old) }
    ensures count { result ≡ lacking a (places_in four room.new) }
{
    let s = segmentation::segments_for(a);
    let blocks = s.blocks;
    let long = bytes_a_block(four);
    let row = bytes_a_row(four);
    let mut lacking = 0;
    let mut at = 0;
    let mut from = 0;
    for r in 0..blocks {
        let k = segmentation::block::size_of(s, r);
        let filler = segmentation::block::filler_of(s, r);
        let end = at + codeword::share_of(blocks, grant.modulation, grant.layers, grant.bits, r);
        let d = k + 4;
        let to = from + row * ((d + 31) / 32);
        let sent = Sent {
            k,
            filler,
            soft,
            version: grant.version,
        };
        lacking += put_part(four, sent, &bits[at..end], &mut room[from..to]);
        at = end;
        from += long;
    }
    lacking
}
