// The bits of one turn put on a code block's circle at the places that they were taken from: bit selection, clause 5.1.4.1.2, from the receiver's side.
#![tactic(auto)]

mod runs;
mod units;

ghost use Rattle.std.specs.Prelude.{◌≡◌, length};
ghost use Rattle.bit_placement.specs.Placement.{part_after_turn, bits_put};

use crate::units::{Block, put_rest, put_units};
use rate_matching::{circle_length, turn_of, unit_at};

// Puts the bits of one turn of redundancy version `version`, or as many as there are, in `part`, which begins with the circle of a code block with streams
// of d places, of which `filler` are filler, and a share `soft` of the soft buffer, which cuts the circle. Tells how many; none where there is no such code
// block or version, or `part` is shorter than the circle.
pub fn put_turn(
    d: usize,
    filler: usize,
    soft: usize,
    version: usize,
    bits: &[u8],
    part: &mut [u8],
) -> usize
    ensures part { part.new ≡ part_after_turn d filler soft version bits.now part.old }
    ensures count { result ≡ bits_put d filler soft version (length bits.now) (length part.old) }
{
    let Some(turn) = turn_of(d, filler, soft, version) else {
        return 0;
    };
    if part.len() < circle_length(d).unwrap() {
        return 0;
    }
    let of = Block { d, filler };
    let first = put_units(of, turn.start, turn.whole, bits, part);
    if turn.rest == 0 {
        return first + put_units(of, 0, turn.start, &bits[first..], part);
    }
    let cut = unit_at(d, filler, turn.whole).unwrap();
    let second = first + put_rest(cut, turn.rest, &bits[first..], part);
    second + put_units(of, 0, turn.start, &bits[second..], part)
}
