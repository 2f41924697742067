// The interleaver on bits, four places with one look. f2 is even, so Π(i + K/4) is f1·K/4 ahead of Π(i), modulo K: the places that belong to i
// in the four quarters lie a quarter apart, and their bits, joined beforehand, are found with one look.
ghost use Rattle.std.specs.Prelude.{true, ◌≡◌, ◌+◌, ◌*◌, ◌%◌, ◌≤◌, ◌<◌, length};
ghost use Rattle.laws.specs.Bits.{AreBits};
ghost use Rattle.laws.specs.Lists.{tab};
ghost use Rattle.interleaver.specs.Into.{bit_by, bits_by};
ghost use Rattle.interleaver.specs.inner.Quarters.{joined, Joinable, fours, Quartered, Countable, less, counter_on, doubled, first_four, digit, spread_over};

use crate::block::reduced;

// Whether every byte is 0 or 1.
pub(crate) fn all_bits(c: &[u8]) -> bool
    ensures { result ≡ true → AreBits c.now }
{
    // with no branch, so that the loop runs many bytes at a time
    let mut seen: u8 = 0;
    for bit in c {
        seen |= *bit;
    }
    seen < 2
}

// The interleaved bits of `c` over `out`, with an array of a quarter's length, or two more, so that it is found four at a time.
pub(crate) fn interleave_bits(f1: usize, f2: usize, c: &[u8], out: &mut [u8])
    requires { Quartered c.now out.old × Countable (length c.now) f1 f2 }
    ensures { out.new ≡ bits_by (length c.now) f1 f2 c.now }
{
    let n = (c.len() / 4 + 3) / 4 * 4;
    // kept: two arms that differ in the array alone; a function with its length as a parameter would say all that by_fours requires once more
    if n <= 64 {
        let mut y = [0u8; 64];
        by_fours(f1, f2, c, &mut y[..n], out);
    } else {
        let mut y = [0u8; 1536];
        by_fours(f1, f2, c, &mut y[..n], out);
    }
}

// The same in a lent slice `y`. The joined bits stand in `out` until they are found.
fn by_fours(f1: usize, f2: usize, c: &[u8], y: &mut [u8], out: &mut [u8])
    requires { Quartered c.now out.old × Countable (length c.now) f1 f2 × (length c.now ≤ 4 * length y.old) × (length y.old % 4 ≡ 0) × (length y.old ≤ 1536) }
    ensures { out.new ≡ bits_by (length c.now) f1 f2 c.now }
{
    join_all(c, out);
    find(f1, f2, out, y);
    let q = c.len() / 4;
    spread_all(f1, &y[..q], out);
}

// At each place the bits there and one, two and three quarters on, joined.
fn join_all(c: &[u8], out: &mut [u8])
    requires { Quartered c.now out.old }
    ensures { out.new ≡ fours c.now }
{
    let q = c.len() / 4;
    let mut b = q;
    let mut d = 2 * q;
    let mut e = 3 * q;
    for quarter in 0..4 {
        let at = quarter * q;
        join(c, at, b, d, e, &mut out[at..at + q]);
        b = d;
        d = e;
        e = at;
    }
}

// Entry by entry the bits of `c` from `a`, `b`, `d` and `e` on as one number, that of `a` lowest.
fn join(c: &[u8], a: usize, b: usize, d: usize, e: usize, part: &mut [u8])
    requires { Joinable c.now a b d e (length part.old) }
    ensures { part.new ≡ tab (length part.old) (joined c.now a b d e) }
{
    for i in 0..part.len() {
        part[i] = c[a + i] + 2 * c[b + i] + 4 * c[d + i] + 8 * c[e + i];
    }
}

// A place Π(i), and what takes it back, modulo K, to Π(i + 4).
#[derive(Clone, Copy)]
struct Counter {
    place: usize,
    back: usize,
}

impl Counter {
    // The counter four places on. What takes it back shrinks by 32·f2, the step.
    #[tactic(auto, unfolding(crate::specs::inner::Quarters::counter_on))]
    fn on(self, step: usize, k: usize) -> Counter
        requires { (self.place ≤ k) × (self.back ≤ k) × (step ≤ k) × (k ≤ 6144) }
        ensures { result ≡ counter_on k step self }
    {
        Counter {
            place: back(self.place, self.back, k),
            back: back(self.back, step, k),
        }
    }
}

// The entries of `w` at Π(0), Π(1), .., four a turn by a counter each, so that none waits for another.
fn find(f1: usize, f2: usize, w: &[u8], y: &mut [u8])
    requires { Countable (length w.now) f1 f2 × (length y.old % 4 ≡ 0) × (length y.old ≤ 1536) }
    ensures { y.new ≡ tab (length y.old) (bit_by (length w.now) f1 f2 w.now) }
{
    let k = w.len();
    let start = first_four(f1, f2, k);
    let step = start.step;
    let mut zeroth = start.zeroth;
    let mut first = start.first;
    let mut second = start.second;
    let mut third = start.third;
    for turn in 0..y.len() / 4 {
        let i = 4 * turn;
        y[i] = w[zeroth.place];
        y[i + 1] = w[first.place];
        y[i + 2] = w[second.place];
        y[i + 3] = w[third.place];
        zeroth = zeroth.on(step, k);
        first = first.on(step, k);
        second = second.on(step, k);
        third = third.on(step, k);
    }
}

// Where `find` begins: the counters of the first four places, and the step.
#[derive(Drop)]
struct Start {
    zeroth: Counter,
    first: Counter,
    second: Counter,
    third: Counter,
    step: usize,
}

// The start for f1 and f2, by sums alone: a short block would feel a division.
fn first_four(f1: usize, f2: usize, k: usize) -> Start
    requires { Countable k f1 f2 }
    ensures { result ≡ first_four k f1 f2 }
{
    let by = doublings(f2, k);
    let four = by.four;
    let eight = by.eight;
    let sixteen = by.sixteen;
    let twice = plus(f1, f1, k);
    let one = plus(f1, f2, k);
    let two = plus(twice, four, k);
    let three = plus(plus(one, two, k), four, k);
    let way = plus(plus(twice, twice, k), sixteen, k);
    let next = plus(way, eight, k);
    Start {
        zeroth: Counter {
            place: 0,
            back: k - way,
        },
        first: Counter {
            place: one,
            back: k - next,
        },
        second: Counter {
            place: two,
            back: k - plus(way, sixteen, k),
        },
        third: Counter {
            place: three,
            back: k - plus(next, sixteen, k),
        },
        step: by.step,
    }
}

// 4, 8, 16 and 32 times f2, modulo K: the last is the step.
#[derive(Drop)]
struct Doubled {
    four: usize,
    eight: usize,
    sixteen: usize,
    step: usize,
}

// Each is twice the one before it.
fn doublings(f2: usize, k: usize) -> Doubled
    requires { (f2 < k) × (k ≤ 6144) }
    ensures { (result ≡ doubled k f2) × (result.four < k) × (result.eight < k) × (result.sixteen < k) }
{
    let two = plus(f2, f2, k);
    let four = plus(two, two, k);
    let eight = plus(four, four, k);
    let sixteen = plus(eight, eight, k);
    let step = plus(sixteen, sixteen, k);
    Doubled {
        four,
        eight,
        sixteen,
        step,
    }
}

// x plus y, modulo k.
fn plus(x: usize, y: usize, k: usize) -> usize
    requires { (x < k) × (y < k) × (k ≤ 6144) }
    ensures { (result ≡ (x + y) % k) × (result < k) }
{
    reduced(x + y, k)
}

// x less y, modulo k.
#[tactic(auto, unfolding(crate::specs::inner::Quarters::less))]
fn back(x: usize, y: usize, k: usize) -> usize
    requires { (x ≤ k) × (y ≤ k) × (k ≤ 6144) }
    ensures { result ≡ less k x y }
{
    if x < y { x + k - y } else { x - y }
}

// The bits that were found to their quarters: quarter u takes bit u·f1 mod 4.
fn spread_all(f1: usize, y: &[u8], out: &mut [u8])
    requires { (f1 ≤ 6144) × (length y.now ≤ 1536) × (length out.old ≡ 4 * length y.now) }
    ensures { out.new ≡ tab (4 * length y.now) (spread_over f1 y.now) }
{
    let mut shift = 0;
    for quarter in 0..4 {
        let at = quarter * y.len();
        spread(y, shift, &mut out[at..at + y.len()]);
        shift = (shift + f1) % 4;
    }
}

// Bit number `shift` of each entry of `y`.
fn spread(y: &[u8], shift: usize, part: &mut [u8])
    requires { (shift < 4) × (length part.old ≡ length y.now) }
    ensures { part.new ≡ tab (length y.now) (digit y.now shift) }
{
    for i in 0..part.len() {
        part[i] = (y[i] >> shift) % 2;
    }
}
