// The bits of a code block put along its circle, unit by unit: most places of a unit that hold a bit lie side by side.
ghost use Rattle.std.specs.Prelude.{◌≤◌, length, take};
ghost use Rattle.rate_matching.specs.SubBlocks.{rows};
ghost use Rattle.rate_matching.specs.Circle.{circle_length};
ghost use Rattle.rate_matching.specs.Shape.{shape, bit_places};
ghost use Rattle.rate_matching.specs.Units.{unit_places, unit_start, Lies};
ghost use Rattle.bit_placement.specs.inner.Along.{Put, Sized};

use crate::runs::{put_alone, put_places};
use rate_matching::{Unit, column_unit_at, pair_unit_at};

// A code block whose streams have d places, of which `filler` are filler.
#[derive(Clone, Copy)]
pub(crate) struct Block {
    pub(crate) d: usize,
    pub(crate) filler: usize,
    ghost sized: { Sized d filler },
}

// Puts bits at the places of a unit that hold one, and tells how many.
fn put_unit(unit: Unit, bits: &[u8], part: &mut [u8]) -> usize
    requires { Lies unit × (unit.end.0 ≤ length part.old) }
    ensures { Put (unit_places unit) bits.now part.old part.new result }
{
    let n = put_alone(bits, unit.alone, unit.both, part);
    n + put_places(&bits[n..], unit.both, unit.end, part)
}

// Puts bits in the columns of stream 0 from unit `from` to unit `to`.
// kept: columns and pairs have loops of their own, as in each the compiler knows the kind of unit, and works out once what all of them share.
fn put_columns(of: Block, from: usize, to: usize, bits: &[u8], part: &mut [u8]) -> usize
    requires { (circle_length (rows of.d) ≤ length part.old) × (from ≤ to) × (to ≤ 32) }
    ensures { Put (bit_places (shape of.d of.filler) (unit_start (rows of.d) from) (unit_start (rows of.d) to))
        bits.now part.old part.new result }
{
    let mut n = 0;
    for u in from..to {
        let unit = column_unit_at(of.d, of.filler, u).unwrap();
        n += put_places(&bits[n..], unit.both, unit.end, part);
    }
    n
}

// The same in the columns of streams 1 and 2, which are the units from 32 on.
fn put_pairs(of: Block, from: usize, to: usize, bits: &[u8], part: &mut [u8]) -> usize
    requires { (circle_length (rows of.d) ≤ length part.old) × (32 ≤ from) × (from ≤ to) × (to ≤ 64) }
    ensures { Put (bit_places (shape of.d of.filler) (unit_start (rows of.d) from) (unit_start (rows of.d) to))
        bits.now part.old part.new result }
{
    let mut n = 0;
    for u in from..to {
        let unit = pair_unit_at(of.d, of.filler, u - 32).unwrap();
        n += put_unit(unit, &bits[n..], part);
    }
    n
}

// Puts bits in the units from unit `from` to unit `to`.
pub(crate) fn put_units(of: Block, from: usize, to: usize, bits: &[u8], part: &mut [u8]) -> usize
    requires { (circle_length (rows of.d) ≤ length part.old) × (from ≤ to) × (to ≤ 64) }
    ensures { Put (bit_places (shape of.d of.filler) (unit_start (rows of.d) from) (unit_start (rows of.d) to))
        bits.now part.old part.new result }
{
    if to <= 32 {
        return put_columns(of, from, to, bits, part);
    }
    if 32 <= from {
        return put_pairs(of, from, to, bits, part);
    }
    let mid = put_columns(of, from, 32, bits, part);
    mid + put_pairs(of, 32, to, &bits[mid..], part)
}

// Puts bits at the first `rest` places that hold one of a unit that the cut shortens.
pub(crate) fn put_rest(unit: Unit, rest: usize, bits: &[u8], part: &mut [u8]) -> usize
    requires { Lies unit × (unit.end.0 ≤ length part.old) }
    ensures { Put (take rest (unit_places unit)) bits.now part.old part.new result }
{
    let n = bits.len().min(rest);
    put_unit(unit, &bits[..n], part)
}
