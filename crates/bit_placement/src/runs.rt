// Bits put at places of the circle that lie side by side, or every second of them: each meets what is kept there.
ghost use Rattle.std.specs.Prelude.{◌≡◌, ◌+◌, ◌-◌, ◌/◌, ◌≤◌, length};
ghost use Rattle.laws.specs.Lists.{tab, tab_from};
ghost use Rattle.rate_matching.specs.Walk.{itself};
ghost use Rattle.slots.specs.Room.{meet};
ghost use Rattle.bit_placement.specs.Placement.{put_first};
ghost use Rattle.bit_placement.specs.inner.Along.{Put, every_second};

use rate_matching::CirclePlace;

// What a place that kept `old` keeps after the bit `new`: no branch, so that a run is met many places at a time.
// kept: no enum of what a byte tells, since a store that the caller keeps has these bytes and any others (`meet` of 01 'Slots').
fn met(old: u8, new: u8) -> u8
    ensures { result ≡ meet old new }
{
    if (old == 2) | (old > 3) | (old == new) {
        new
    } else {
        3
    }
}

// Puts bits at the front of a run.
fn meet_run(bits: &[u8], run: &mut [u8])
    requires { length bits.now ≤ length run.old }
    ensures { run.new ≡ put_first (tab (length bits.now) itself) bits.now run.old }
{
    for (i, bit) in bits.iter().enumerate() {
        run[i] = met(run[i], *bit);
    }
}

// Puts bits at the front of a run, as many as there are of both, and tells how many.
fn put_run(bits: &[u8], run: &mut [u8]) -> usize
    ensures { Put (tab (length run.old) itself) bits.now run.old run.new result }
{
    let n = bits.len().min(run.len());
    meet_run(&bits[..n], run);
    n
}

// Puts bits at the places of the circle from `from` to `to`, which lie side by side. The byte of a place has its number.
pub(crate) fn put_places(bits: &[u8], from: CirclePlace, to: CirclePlace, part: &mut [u8]) -> usize
    requires { (from.0 ≤ to.0) × (to.0 ≤ length part.old) }
    ensures { Put (tab_from from.0 (to.0 - from.0) itself) bits.now part.old part.new result }
{
    let start = from.0;
    let end = to.0;
    put_run(bits, &mut part[start..end])
}

// Puts bits at every second place of the circle from `from` on, up to `to`.
pub(crate) fn put_alone(bits: &[u8], from: CirclePlace, to: CirclePlace, part: &mut [u8]) -> usize
    requires { (from.0 ≤ to.0 + 1) × (to.0 ≤ length part.old) }
    ensures { Put (tab ((to.0 + 1 - from.0) / 2) (every_second from.0)) bits.now part.old part.new result }
{
    let mut n = 0;
    for k in 0..(to.0 + 1 - from.0) / 2 {
        let place = CirclePlace(from.0 + 2 * k);
        let next = CirclePlace(place.0 + 1);
        n += put_places(&bits[n..], place, next, part);
    }
    n
}
