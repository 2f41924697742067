// The bits of one code block: a turn or less is put as it comes, and more turns meet in a ring first.
ghost use Rattle.std.specs.Prelude.{◌≡◌, ◌+◌, ◌≤◌, ◌<◌, length};
ghost use Rattle.laws.specs.Bits.{AreBits};
ghost use Rattle.slots.specs.Circle.{lacking_on};
ghost use Rattle.bit_placement.specs.Placement.{put_first};
ghost use Rattle.reception.specs.inner.Ring.{ring_of};
ghost use Rattle.reception.specs.inner.Sent.{OnCircle, turn_of, part_with};

use crate::sent::Sent;
use crate::turns;
use bit_placement::put_turn;
use rate_matching::turn_length;

// The places of a turn that the short and the long ring have room for.
const SHORT_RING: usize = 3168;

const LONG_RING: usize = 18528;

// Puts turns, which are more than one: they meet in a ring, which is put as one turn.
fn put_turns(sent: Sent, bits: &[u8], ring: &mut [u8], part: &mut [u8])
    requires { OnCircle sent part.old × (0 < length ring.old) × (length ring.old ≤ length bits.now) × AreBits bits.now }
    ensures { part.new ≡ put_first (turn_of sent) (ring_of (length ring.old) bits.now) part.old }
{
    turns::meet_turns(bits, ring);
    put_turn(sent.k + 4, sent.filler, sent.soft, sent.version, ring, part);
}

// The same for turns of n bits, with an array of R bytes for the ring.
fn put_with<const R: usize>(sent: Sent, n: usize, bits: &[u8], part: &mut [u8])
    requires { OnCircle sent part.old × (0 < n) × (n ≤ R) × (R ≤ 18528) × (n ≤ length bits.now) × AreBits bits.now }
    ensures { part.new ≡ put_first (turn_of sent) (ring_of n bits.now) part.old }
{
    let mut ring = [0u8; R];
    put_turns(sent, bits, &mut ring[..n], part);
}

// Puts the bits that were sent of a code block.
fn put_block(sent: Sent, bits: &[u8], part: &mut [u8])
    requires { OnCircle sent part.old × AreBits bits.now }
    ensures { part.new ≡ part_with sent bits.now part.old }
{
    let d = sent.k + 4;
    let n = turn_length(d, sent.filler, sent.soft);
    if bits.len() <= n {
        put_turn(d, sent.filler, sent.soft, sent.version, bits, part);
    } else if n <= SHORT_RING {
        put_with::<SHORT_RING>(sent, n, bits, part);
    } else {
        put_with::<LONG_RING>(sent, n, bits, part);
    }
}

// Puts the bits of a code block on its circle, and counts its data places that then lack a bit.
pub(crate) fn put_circle(sent: Sent, bits: &[u8], circle: &mut [u8]) -> usize
    requires { OnCircle sent circle.old × AreBits bits.now }
    ensures stored { circle.new ≡ part_with sent bits.now circle.old }
    ensures count { result ≡ lacking_on circle.new sent.k sent.filler }
{
    put_block(sent, bits, circle);
    kept_bits::lacking_of(circle, sent.k, sent.filler)
}
