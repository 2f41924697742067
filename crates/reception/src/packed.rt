// A code block's bits on a room with four places a byte (02): its circle is unpacked, takes them, is counted and packed again.
ghost use Rattle.std.specs.Prelude.{◌≡◌, true, ◌*◌, ◌≤◌, length};
ghost use Rattle.laws.specs.Bits.{AreBits};
ghost use Rattle.slots.specs.Circle.{lacking_on};
ghost use Rattle.packing.specs.Store.{places_in};
ghost use Rattle.reception.specs.inner.Sent.{OnCircle, part_with};

use crate::parts;
use crate::sent::Sent;

// Puts the bits of a code block in `part`, the bytes of its circle, by way of `circle`, and counts its data places that then lack a bit.
fn put_by(sent: Sent, bits: &[u8], circle: &mut [u8], part: &mut [u8]) -> usize
    requires { OnCircle sent circle.old × (length circle.old ≡ 4 * length part.old) × AreBits bits.now }
    ensures stored { places_in true part.new ≡ part_with sent bits.now (places_in true part.old) }
    ensures count { result ≡ lacking_on (places_in true part.new) sent.k sent.filler }
{
    packing::unpack_places(part, circle);
    let lacking = parts::put_circle(sent, bits, circle);
    packing::pack_places(circle, part);
    lacking
}

// The same with an array that has room for P places.
pub(crate) fn put_with<const P: usize>(sent: Sent, bits: &[u8], part: &mut [u8]) -> usize
    requires { OnCircle sent (places_in true part.old) × (4 * length part.old ≤ P) × (P ≤ 18528) × AreBits bits.now }
    ensures stored { places_in true part.new ≡ part_with sent bits.now (places_in true part.old) }
    ensures count { result ≡ lacking_on (places_in true part.new) sent.k sent.filler }
{
    let places = 4 * part.len();
    let mut circle = [0u8; P];
    put_by(sent, bits, &mut circle[..places], part)
}
