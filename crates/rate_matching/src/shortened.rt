// A circle that is cut at N_cb, clause 5.1.4.1.2: for every N_cb that is accepted a version starts at the head of a unit, and the cut shortens one unit and
// nothing else.
ghost use Rattle.std.specs.Prelude.{◌≡◌, true, ◌≤◌, length};
ghost use Rattle.rate_matching.specs.SubBlocks.{rows};
ghost use Rattle.rate_matching.specs.Circle.{Cut, cut_at};
ghost use Rattle.rate_matching.specs.Shape.{shape, bit_places};
ghost use Rattle.rate_matching.specs.Units.{unit_start, unit_of, start_unit, bits_before, Lies, Fitting};
ghost use Rattle.rate_matching.specs.Turns.{matchable, units_of, turn_of, turn_length};

use crate::mapping::{LONGEST, pair_unit, rows_of};
use crate::{CirclePlace, Turn, Unit};

// The unit that begins at place R·(2·m + 2) of a circle of R rows.
fn unit_of(m: usize) -> usize
    requires { m ≤ 36 }
    ensures { result ≡ unit_of m }
{
    if m < 15 {
        return 2 * m + 2;
    }
    m + 17
}

// The unit that begins at the start of a version, on a circle of `rows` rows that is cut at `ncb`.
fn start_unit(ncb: usize, rows: usize, version: usize) -> usize
    requires { Cut ncb rows × (rows ≤ 193) × (version ≤ 3) }
    ensures { result ≡ start_unit ncb rows version }
{
    unit_of((ncb + (8 * rows - 1)) / (8 * rows) * version)
}

// How many bits of a unit lie before the place where the circle is cut.
fn bits_before(unit: Unit, cut: CirclePlace) -> usize
    requires { Lies unit }
    ensures { result ≡ bits_before unit cut }
{
    if unit.both.0 < cut.0 {
        let alone = (unit.both.0 + 1 - unit.alone.0) / 2;
        return alone + (unit.end.0.min(cut.0) - unit.both.0);
    }
    (cut.0 + 1).saturating_sub(unit.alone.0) / 2
}

// Whether these are the lengths and the filler of a code block's streams, a length of its circle that is accepted, and one of the four versions.
pub fn matchable(d: usize, d1: usize, d2: usize, filler: usize, ncb: usize, version: usize) -> bool
    ensures { result ≡ matchable d d1 d2 filler ncb version }
{
    if d > LONGEST {
        return false;
    }
    let rows = rows_of(d);
    (d1 == d)
        & (d2 == d)
        & (44 <= d)
        & (d % 8 == 4)
        & (filler < d)
        & (32 * rows <= ncb)
        & (ncb <= 96 * rows)
        & (version <= 3)
}

// N_cb of a code block whose streams have d places, with a share `soft` of the soft buffer: no longer than the circle. No code block has streams so long that
// the product stops short.
pub fn cut_at(soft: usize, d: usize) -> usize
    ensures { result ≡ cut_at soft (rows d) }
{
    soft.min(rows_of(d).saturating_mul(96))
}

// The turn of redundancy version `version` on a circle that is cut at `ncb`, of a code block with streams of d places, `filler` of them filler. A circle that
// is not cut, as every uplink's, has all 64 units and needs no division.
fn turn_in(d: usize, filler: usize, ncb: usize, version: usize) -> Turn
    requires { matchable d d d filler ncb version ≡ true }
    ensures { result ≡ units_of d filler ncb version }
{
    let rows = rows_of(d);
    if ncb == 96 * rows {
        return Turn {
            start: unit_of(12 * version),
            whole: 64,
            rest: 0,
        };
    }
    let start = start_unit(ncb, rows, version);
    let whole = 32 + (ncb - 32 * rows) / (2 * rows);
    let rest = bits_before(pair_unit(d, filler, whole - 32), CirclePlace(ncb));
    Turn { start, whole, rest }
}

// The turn of a code block that has such a share; none where there is no such code block or version, or its N_cb is below 32·R.
pub fn turn_of(d: usize, filler: usize, soft: usize, version: usize) -> Option<Turn>
    ensures { result ≡ turn_of d filler soft version }
{
    let ncb = cut_at(soft, d);
    if !matchable(d, d, d, filler, ncb, version) {
        return None;
    }
    Some(turn_in(d, filler, ncb, version))
}

// How many bits the units before unit `to` have, which is one of streams 1 and 2: stream 0 has a bit for each of its places past the filler.
fn bits_to(d: usize, filler: usize, to: usize) -> usize
    requires { Fitting d d d filler × (32 ≤ to) × (to ≤ 64) }
    ensures { result ≡ length (bit_places (shape d filler) 0 (unit_start (rows d) to)) }
{
    let mut n = d - filler;
    for u in 32..to {
        let unit = pair_unit(d, filler, u - 32);
        n += bits_before(unit, unit.end);
    }
    n
}

// How many bits one turn has, of whichever version; 0 where nothing can be sent. A circle that is not cut has all of the three streams, but for the filler
// of two.
// kept: a number and no Option, since reception compares it with the bits that it has.
pub fn turn_length(d: usize, filler: usize, soft: usize) -> usize
    ensures { result ≡ turn_length d filler soft }
{
    let ncb = cut_at(soft, d);
    if !matchable(d, d, d, filler, ncb, 0) {
        return 0;
    }
    if ncb == 96 * rows_of(d) {
        return 3 * d - 2 * filler;
    }
    let turn = turn_in(d, filler, ncb, 0);
    bits_to(d, filler, turn.whole) + turn.rest
}
