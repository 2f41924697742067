// How often each of the 32 coded bits came as a 1 and as a 0: counted turn by turn, then kept as bit planes, by which a word's distance is
// a few counts of ones.
ghost use Rattle.std.specs.Prelude.{◌≡◌, ◌++◌, ◌-◌, ◌≤◌, ◌<◌, ◌^◌, length, replicate};
ghost use Rattle.laws.specs.Bits.{AreBits, EachBelow};
ghost use Rattle.laws.specs.Lists.{tab};
ghost use Rattle.report_code.specs.inner.Counts.{inverted, plus, digits, plane, plane_distance};
ghost use Rattle.report_code.specs.inner.Counted.{Counted};

use super::block::packed;

// The counts of a 1 and of a 0 at each of the 32 places.
// kept: two arrays side by side, not one of pairs: a plane is made of all counts of one kind, which then stand next to one another.
#[derive(Clone, Copy)]
pub struct Counts {
    pub ones: [u16; 32],
    pub zeros: [u16; 32],
}

// The counts over a received run, turn by turn. Whole turns are counted by themselves: the compiler knows their length.
pub(crate) fn counted(control: &[u8]) -> Counts
    requires { (length control.now ≤ 16384) × AreBits control.now }
    ensures { Counted control.now result.ones result.zeros }
{
    let mut ones = [0u16; 32];
    let mut zeros = [0u16; 32];
    let turns = control.chunks_exact(32);
    let last = turns.remainder();
    for turn in turns {
        count_turn(turn, &mut ones, &mut zeros);
    }
    count_turn(last, &mut ones, &mut zeros);
    Counts { ones, zeros }
}

// One turn of at most 32 bits, added to the counts.
fn count_turn(turn: &[u8], ones: &mut [u16; 32], zeros: &mut [u16; 32])
    requires turn_len_bound { (length turn.now ≤ 32) × AreBits turn.now }
    requires each_below { EachBelow 16384 ones.old × EachBelow 16384 zeros.old }
    requires ones_len { (length ones.old ≡ 32) × (length zeros.old ≡ 32) }
    ensures ones_after { ones.new ≡ plus ones.old turn.now }
    ensures zeros_after { zeros.new ≡ plus zeros.old (inverted turn.now) }
{
    for i in 0..turn.len() {
        let bit = turn[i] as u16;
        ones[i] += bit;
        zeros[i] += 1 - bit;
    }
}

// The first `count` planes of the counts.
pub(crate) fn planes_of(counts: &[u16; 32], count: usize) -> [u32; 10]
    requires { (count ≤ 10) × (length counts.now ≡ 32) }
    ensures { result ≡ tab count (plane counts.now) ++ replicate (10 - count) 0 }
{
    let mut planes = [0u32; 10];
    for p in 0..count {
        planes[p] = packed(&digits_of(counts, p));
    }
    planes
}

// Binary digit p of each count.
fn digits_of(counts: &[u16; 32], p: usize) -> [u8; 32]
    requires { (p < 10) × (length counts.now ≡ 32) }
    ensures { result ≡ digits counts.now p }
{
    let mut bits = [0u8; 32];
    for i in 0..32 {
        bits[i] = ((counts[i] >> p) % 2) as u8;
    }
    bits
}

// The distance of a word by `count` planes, the highest first.
pub(crate) fn plane_distance(word: u32, ones: &[u32; 10], zeros: &[u32; 10], count: usize) -> u32
    requires { count ≤ 10 }
    ensures { result ≡ plane_distance word ones.now zeros.now count 0 }
{
    let other = word ^ 4294967295;
    let mut above: u32 = 0;
    for p in (0..count).rev() {
        above = 2 * above + (zeros[p] & word).count_ones() + (ones[p] & other).count_ones();
    }
    above
}
