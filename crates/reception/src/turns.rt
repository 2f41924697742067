// The turns of a code block's bits brought together in a ring as long as a turn, so that they are put once.
ghost use Rattle.std.specs.Prelude.{◌≡◌, cond, ◌≤◌, ◌<◌, eqb, length};
ghost use Rattle.laws.specs.Bits.{AreBits};
ghost use Rattle.laws.specs.Lists.{tab};
ghost use Rattle.rate_matching.specs.Walk.{itself};
ghost use Rattle.slots.specs.Room.{disputed};
ghost use Rattle.bit_placement.specs.Placement.{put_first};
ghost use Rattle.reception.specs.inner.Ring.{AllKnown, ring_of};

// What a place keeps where something was heard before: a shorter test than for any place.
fn agreed(old: u8, new: u8) -> u8
    ensures { result ≡ cond (eqb old new) new disputed }
{
    if old == new { new } else { 3 }
}

// Puts bits at the front of a run in which something was heard everywhere.
// kept: beside bit_placement's run for any place, whose test is longer; one function for both would take a test with its law, for a loop of one line.
fn agree_run(bits: &[u8], run: &mut [u8])
    requires { (length bits.now ≤ length run.old) × AllKnown bits.now × AllKnown run.old }
    ensures { run.new ≡ put_first (tab (length bits.now) itself) bits.now run.old }
{
    for (i, bit) in bits.iter().enumerate() {
        run[i] = agreed(run[i], *bit);
    }
}

// Brings the turns together: the first is copied, and each that comes after it meets what is there.
pub(crate) fn meet_turns(bits: &[u8], ring: &mut [u8])
    requires { (0 < length ring.old) × (length ring.old ≤ length bits.now) × AreBits bits.now }
    ensures { ring.new ≡ ring_of (length ring.old) bits.now }
{
    let n = ring.len();
    ring.copy_from_slice(&bits[..n]);
    for turn in bits[n..].chunks(n) {
        agree_run(turn, ring);
    }
}
