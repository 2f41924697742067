// The nearest message: every message of O bits in turn, its word from the one before, its distance by the planes.
ghost use Rattle.std.specs.Prelude.{◌≡◌, ◌++◌, ◌+◌, ◌-◌, ◌/◌, ◌≤◌, ◌<◌, ◌^◌, length, replicate};
ghost use Rattle.laws.specs.Lists.{tab};
ghost use Rattle.report_code.specs.Nearest.{nearer_of, nearest_up_to, unfit, nearest_of};
ghost use Rattle.report_code.specs.inner.Search.{word_distance, step_word};

use super::block::coded_word;
use super::counts::{counted, plane_distance, planes_of};

// The nearest message, how far it is, and whether another is as near.
// kept: a flag beside the values, no Option: of a tie too the nearest message and its distance are said, by `nearest_of` and the laws of `Least`.
#[derive(Clone, Copy)]
pub struct Found {
    pub message: u32,
    pub distance: u32,
    pub tied: bool,
}

// The nearest message of `o` bits to the received control bits.
pub fn nearest(o: usize, control: &[u8]) -> Found
    ensures { result ≡ nearest_of o control.now }
{
    if is_unfit(o, control) {
        return Found {
            message: 0,
            distance: 0,
            tied: true,
        };
    }
    let counts = counted(control);
    let count = planes_for(control.len());
    let heard_ones = counts.ones;
    let heard_zeros = counts.zeros;
    let ones = planes_of(&heard_ones, count);
    let zeros = planes_of(&heard_zeros, count);
    search(o, &ones, &zeros, count)
}

// What no accepted call asks for.
#[tactic(auto, unfolding(crate::specs::Nearest::unfit))]
fn is_unfit(o: usize, control: &[u8]) -> bool
    ensures { result ≡ unfit o control.now }
{
    o > 11 || control.len() > 16384 || codeword::bad_bits(control)
}

// As many planes as a count of turns needs.
fn planes_for(length: usize) -> usize
    requires { length ≤ 16384 }
    ensures { (result ≤ 10) × ((length + 31) / 32 < 2 ^ result) }
{
    let turns = ((length + 31) / 32) as u32;
    32 - turns.leading_zeros() as usize
}

// The messages from 0 on. Message m differs from the one before in its lowest set bit and all bits below.
fn search(o: usize, ones: &[u32; 10], zeros: &[u32; 10], count: usize) -> Found
    requires { (o ≤ 11) × (count ≤ 10) }
    ensures { result ≡ nearest_up_to (word_distance ones.now zeros.now count) (2 ^ o - 1) }
{
    let steps = steps_for(o);
    let end: u32 = 1 << o;
    let mut word: u32 = 0;
    let mut found = Found {
        message: 0,
        distance: plane_distance(0, ones, zeros, count),
        tied: false,
    };
    for m in 1..end {
        let k = m.trailing_zeros() as usize;
        word ^= steps[k];
        found = nearer(found, m, plane_distance(word, ones, zeros, count));
    }
    found
}

// The words of the messages 1, 3, 7, ..: what changes of a word when the message counts up over k set bits.
fn steps_for(o: usize) -> [u32; 11]
    requires { o ≤ 11 }
    ensures { result ≡ tab o step_word ++ replicate (11 - o) 0 }
{
    let mut steps = [0u32; 11];
    let mut last: u32 = 1;
    for k in 0..o {
        steps[k] = coded_word(last);
        last = 2 * last + 1;
    }
    steps
}

// The nearest so far, after one more message at its distance.
#[tactic(auto, unfolding(crate::specs::Nearest::nearer_of))]
fn nearer(found: Found, m: u32, d: u32) -> Found
    ensures { result ≡ nearer_of found m d }
{
    if d < found.distance {
        return Found {
            message: m,
            distance: d,
            tied: false,
        };
    }
    if d == found.distance {
        return Found {
            tied: true,
            ..found
        };
    }
    found
}
