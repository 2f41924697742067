// The block's rate matcher, clauses 5.1.4.1.1 and 5.1.4.1.2: where dummies and filler stand is known, so the bits of a turn go column by
// column straight from the streams into a ring, no further than they are sent, and the ring is copied turn after turn.
ghost use Rattle.std.specs.Prelude.{◌≡◌, true, List, ℕ, ◌+◌, ◌-◌, ◌*◌, ◌/◌, ◌^◌, ◌≤◌, ◌<◌, length, take};
ghost use Rattle.laws.specs.Lists.{tab};
ghost use Rattle.rate_matching.specs.SubBlocks.{rows};
ghost use Rattle.rate_matching.specs.Circle.{circle_length};
ghost use Rattle.rate_matching.specs.Walk.{turn_after_turn};
ghost use Rattle.rate_matching.specs.Units.{alone_count, both_count, unit_start, Fitting};
ghost use Rattle.rate_matching.specs.Turns.{matchable};
ghost use Rattle.bit_selection.specs.Matcher.{matched_into, repeated_into};
ghost use Rattle.bit_selection.specs.inner.Bits.{every_row, pair_row, column_bits, pair_bits, units_from, Reads};
ghost use Rattle.bit_selection.specs.inner.Ring.{Holds, ring_length, Put, PutTo, TurnIn};

use rate_matching::{StreamPlace, Unit, column_unit_at, matchable, pair_unit_at, rows_of, turn_of};

// The ring for a turn is filled when it is made, so there are three: for the circle of a short block, with R up to 5, or few bits of any block;
// for that of a block of a middle size, with R up to 33; for the largest circle, with R = 193.
const SHORT_RING: usize = 480;

const MIDDLE_RING: usize = 3168;

const LONG_RING: usize = 18528;

// The most entries of whole turns that are copied at once, and a turn of so few that copying it alone is slower.
const MANY: usize = 2048;

const FEW: usize = 512;

// The streams of a code block, where the first `filler` places of d(0) and d(1) are <NULL>.
#[derive(Clone, Copy)]
struct Streams<'a> {
    d0: &'a [u8],
    d1: &'a [u8],
    d2: &'a [u8],
    filler: usize,
    ghost fits: { Fitting (length d0.now) (length d1.now) (length d2.now) filler },
}

// One column of a stream: every 32nd entry from a place on.
// kept: the entry is counted beside the row, since with a `for` over the rows here and below a short block, whose columns have few rows, took a fourth longer.
fn read_column(d: &[u8], from: StreamPlace, part: &mut [u8])
    requires { from.1 + 32 * length part.old ≤ length d.now + 31 }
    ensures { part.new ≡ tab (length part.old) (every_row d.now from.1) }
{
    let mut below = 0;
    let mut q = 0;
    while q < part.len() {
        part[q] = d[from.1 + below];
        below += 32;
        q += 1;
    }
}

// A column of d(1) and the same column of d(2), one further, by turns.
// kept: the same.
fn read_pairs(d1: &[u8], d2: &[u8], from: StreamPlace, part: &mut [u8])
    requires { (from.1 + 32 * ((length part.old + 1) / 2) ≤ length d1.now + 31) × (from.1 + 32 * (length part.old / 2) ≤ length d2.now + 30) }
    ensures { part.new ≡ tab (length part.old) (pair_row d1.now d2.now from.1) }
{
    let mut below = 0;
    let mut k = 0;
    while k + 1 < part.len() {
        part[k] = d1[from.1 + below];
        part[k + 1] = d2[from.1 + below + 1];
        below += 32;
        k += 2;
    }
    if k < part.len() {
        part[k] = d1[from.1 + below];
    }
}

// Puts the bits of a column of d(0) into the ring from its place n on, and tells where they end.
fn put_column(d0: &[u8], unit: Unit, ring: &mut [u8], n: usize) -> usize
    requires { Reads (length d0.now) unit × (unit.first.0 ≡ 0) × (n + (alone_count unit + both_count unit) ≤ length ring.old) }
    ensures { Put (column_bits d0.now unit) ring.old n ring.new result }
{
    let end = n + (unit.end.0 - unit.both.0);
    read_column(d0, unit.first, &mut ring[n..end]);
    end
}

// The same of a column of d(1) and d(2): those of d(2) alone, and then of both by turns.
fn put_pair(d1: &[u8], d2: &[u8], unit: Unit, ring: &mut [u8], n: usize) -> usize
    requires { (length d2.now ≡ length d1.now) × Reads (length d1.now) unit × (unit.first.0 ≡ 0 → ⊥) × (n + (alone_count unit + both_count unit) ≤ length ring.old) }
    ensures { Put (pair_bits d1.now d2.now unit) ring.old n ring.new result }
{
    let mid = n + (unit.both.0 + 1 - unit.alone.0) / 2;
    read_column(d2, unit.early, &mut ring[n..mid]);
    let end = mid + (unit.end.0 - unit.both.0);
    read_pairs(d1, d2, unit.first, &mut ring[mid..end]);
    end
}

// Puts the bits of the columns of d(0) from `from` to `to` into the ring from its place n on until it holds `most`, and tells where they end.
// kept: columns and pairs have loops of their own, as in each the compiler knows the kind of unit, and works out once what all of them share.
fn put_columns(of: Streams, from: usize, to: usize, ring: &mut [u8], n: usize, most: usize) -> usize
    requires { (from ≤ to) × (to ≤ 32) × (n ≤ length ring.old)
        × Holds (rows (length of.d0.now)) most (n + (unit_start (rows (length of.d0.now)) to - unit_start (rows (length of.d0.now)) from)) (length ring.old) }
    ensures { PutTo most (units_from (length of.entry.d0.now) of.entry.d0.now of.entry.d1.now of.entry.d2.now of.entry.filler from (to - from))
        (unit_start (rows (length of.entry.d0.now)) to - unit_start (rows (length of.entry.d0.now)) from)
        ring.old n ring.new result }
{
    let d = of.d0.len();
    let filler = of.filler;
    let mut end = n;
    for u in from..to {
        if most <= end {
            return end;
        }
        let unit = column_unit_at(d, filler, u).unwrap();
        end = put_column(of.d0, unit, ring, end);
    }
    end
}

// The same of the columns of d(1) and d(2), which are the units from 32 on.
fn put_pairs(of: Streams, from: usize, to: usize, ring: &mut [u8], n: usize, most: usize) -> usize
    requires { (32 ≤ from) × (from ≤ to) × (to ≤ 64) × (n ≤ length ring.old)
        × Holds (rows (length of.d0.now)) most (n + (unit_start (rows (length of.d0.now)) to - unit_start (rows (length of.d0.now)) from)) (length ring.old) }
    ensures { PutTo most (units_from (length of.entry.d0.now) of.entry.d0.now of.entry.d1.now of.entry.d2.now of.entry.filler from (to - from))
        (unit_start (rows (length of.entry.d0.now)) to - unit_start (rows (length of.entry.d0.now)) from)
        ring.old n ring.new result }
{
    let d = of.d0.len();
    let filler = of.filler;
    let mut end = n;
    for u in from..to {
        if most <= end {
            return end;
        }
        let unit = pair_unit_at(d, filler, u - 32).unwrap();
        end = put_pair(of.d1, of.d2, unit, ring, end);
    }
    end
}

// Puts the bits of the units from `from` to `to` in the same way.
fn put_units(of: Streams, from: usize, to: usize, ring: &mut [u8], n: usize, most: usize) -> usize
    requires { (from ≤ to) × (to ≤ 64) × (n ≤ length ring.old)
        × Holds (rows (length of.d0.now)) most (n + (unit_start (rows (length of.d0.now)) to - unit_start (rows (length of.d0.now)) from)) (length ring.old) }
    ensures { PutTo most (units_from (length of.entry.d0.now) of.entry.d0.now of.entry.d1.now of.entry.d2.now of.entry.filler from (to - from))
        (unit_start (rows (length of.entry.d0.now)) to - unit_start (rows (length of.entry.d0.now)) from)
        ring.old n ring.new result }
{
    if to <= 32 {
        return put_columns(of, from, to, ring, n, most);
    }
    if 32 <= from {
        return put_pairs(of, from, to, ring, n, most);
    }
    let mid = put_columns(of, from, 32, ring, n, most);
    put_pairs(of, 32, to, ring, mid, most)
}

// Puts the first `rest` bits of the columns of d(1) and d(2) that the cut shortens into the ring from its place n on, unless it holds `most`, and tells where
// they end. All bits of the unit are put, and those behind the cut left out of account.
fn put_rest(of: Streams, unit: Unit, rest: usize, ring: &mut [u8], n: usize, most: usize) -> usize
    requires { Reads (length of.d0.now) unit × (unit.first.0 ≡ 0 → ⊥) × (rest ≤ length (pair_bits of.d1.now of.d2.now unit))
        × (n ≤ length ring.old) × (n < most → n + (alone_count unit + both_count unit) ≤ length ring.old) }
    ensures { PutTo most (take rest (pair_bits of.entry.d1.now of.entry.d2.now unit)) rest ring.old n ring.new result }
{
    if most <= n {
        return n;
    }
    put_pair(of.d1, of.d2, unit, ring, n);
    n + rest
}

// Fills `out` with the ring turn after turn; the last turn may be cut short.
// kept: no `chunks_mut`, since a proof knows of the chunks' slice afterwards only how long it is.
fn repeat(ring: &[u8], out: &mut [u8])
    requires { 0 < length ring.now }
    ensures { out.new ≡ tab (length out.old) (turn_after_turn ring.now) }
{
    let n = ring.len();
    let whole = out.len() / n;
    for turn in 0..whole {
        let at = turn * n;
        let end = at + n;
        out[at..end].copy_from_slice(ring);
    }
    let last = whole * n;
    let left = out.len() - last;
    out[last..].copy_from_slice(&ring[..left]);
}

// The same of a ring that is short beside `out`, by copies of many turns at once.
fn repeat_many(ring: &[u8], out: &mut [u8])
    requires { (0 < length ring.now) × (length ring.now ≤ 2048) }
    ensures { out.new ≡ tab (length out.old) (turn_after_turn ring.now) }
{
    let mut turns = [0u8; MANY];
    let n = MANY / ring.len() * ring.len();
    repeat(ring, &mut turns[..n]);
    repeat(&turns[..n], out);
}

// Fills `out` with the ring turn after turn, in the way that is faster. Marked to be a part of its callers: in `match_in`, which made the ring, the
// compiler then knows that `out` lies elsewhere.
#[inline(always)]
fn fill(ring: &[u8], out: &mut [u8])
    requires { 0 < length ring.now }
    ensures { out.new ≡ tab (length out.old) (turn_after_turn ring.now) }
{
    if (ring.len() <= FEW) & (MANY <= out.len()) {
        repeat_many(ring, out);
        return;
    }
    repeat(ring, out);
}

// The same for any ring; an empty one leaves `out` as it is. Marked not to be a part of its caller: as one it made a control message up to a sixth slower.
#[inline(never)]
pub fn turn_after_turn(ring: &[u8], out: &mut [u8])
    ensures { out.new ≡ repeated_into ring.now out.old }
{
    if ring.len() == 0 {
        return;
    }
    fill(ring, out);
}

// Puts the bits of a turn into the ring, or as many of them as are sent, and tells where they end. The cut shortens one pair of columns and nothing else.
fn put_turn(of: Streams, ncb: usize, version: usize, ring: &mut [u8], most: usize) -> usize
    requires { (matchable (length of.d0.now) (length of.d1.now) (length of.d2.now) of.filler ncb version ≡ true)
        × Holds (rows (length of.d0.now)) most (circle_length (rows (length of.d0.now))) (length ring.old) × (0 < most) }
    ensures { TurnIn of.entry.d0.now of.entry.d1.now of.entry.d2.now of.entry.filler ncb version most ring.new result }
{
    let turn = turn_of(of.d0.len(), of.filler, ncb, version).unwrap();
    let n = put_units(of, turn.start, turn.whole, ring, 0, most);
    if turn.rest == 0 {
        return put_units(of, 0, turn.start, ring, n, most);
    }
    let cut = pair_unit_at(of.d0.len(), of.filler, turn.whole - 32).unwrap();
    let m = put_rest(of, cut, turn.rest, ring, n, most);
    put_units(of, 0, turn.start, ring, m, most)
}

// The places that a ring of streams of `d` places needs for `e` bits: those of the circle, or fewer where the bits end before.
fn ring_length(d: usize, e: usize) -> usize
    requires { (d ≤ 6148) × (e < 2 ^ 63) }
    ensures { result ≡ ring_length (rows d) e }
{
    let rows = rows_of(d);
    (e + 2 * rows).min(96 * rows)
}

// Rate matching of one code block with a ring of so many places. It is repeated where it was made: there the compiler knows that `out` lies elsewhere, and
// copies many bytes at once.
fn match_in<const RING: usize>(of: Streams, ncb: usize, version: usize, out: &mut [u8])
    requires { (matchable (length of.d0.now) (length of.d1.now) (length of.d2.now) of.filler ncb version ≡ true)
        × (ring_length (rows (length of.d0.now)) (length out.old) ≤ RING) × (RING ≤ 18528) × (0 < length out.old) }
    ensures { out.new ≡ matched_into of.entry.d0.now of.entry.d1.now of.entry.d2.now of.entry.filler ncb version out.old }
{
    let mut ring = [0u8; RING];
    let end = put_turn(of, ncb, version, &mut ring, out.len());
    fill(&ring[..end], out);
}

// The same with the shortest ring that is long enough.
fn match_block(of: Streams, ncb: usize, version: usize, out: &mut [u8])
    requires { (matchable (length of.d0.now) (length of.d1.now) (length of.d2.now) of.filler ncb version ≡ true)
        × (0 < length out.old) }
    ensures { out.new ≡ matched_into of.entry.d0.now of.entry.d1.now of.entry.d2.now of.entry.filler ncb version out.old }
{
    let places = ring_length(of.d0.len(), out.len());
    if places <= SHORT_RING {
        return match_in::<SHORT_RING>(of, ncb, version, out);
    }
    if places <= MIDDLE_RING {
        return match_in::<MIDDLE_RING>(of, ncb, version, out);
    }
    match_in::<LONG_RING>(of, ncb, version, out);
}

// Rate matching of one code block: fills `out` with the bits that redundancy version `version` sends of the streams d(0), d(1) and d(2),
// where the first `filler` places of d(0) and d(1) are <NULL> and the circle is cut at `ncb`. Of streams that are no code block's, an `ncb` that is
// not from 32·R to 96·R, or another version, it leaves `out` as it is.
// kept: the streams one by one, as `send` of build_calls lends them.
pub fn rate_match(
    d0: &[u8],
    d1: &[u8],
    d2: &[u8],
    filler: usize,
    ncb: usize,
    version: usize,
    out: &mut [u8],
)
    ensures { out.new ≡ matched_into d0.now d1.now d2.now filler ncb version out.old }
{
    if out.len() == 0 {
        return;
    }
    if !matchable(d0.len(), d1.len(), d2.len(), filler, ncb, version) {
        return;
    }
    match_block(Streams { d0, d1, d2, filler }, ncb, version, out);
}
