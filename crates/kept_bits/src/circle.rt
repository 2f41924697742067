// What the circle of one code block keeps: the bytes of a stream, and how many of them lack a bit.
ghost use Rattle.std.specs.Prelude.{◌≡◌, cond, ◌++◌, ℕ, ◌+◌, ◌-◌, ◌*◌, ◌≤◌, ◌<◌, length, drop, replicate};
ghost use Rattle.laws.specs.Lists.{tab, tab_from};
ghost use Rattle.rate_matching.specs.SubBlocks.{rows};
ghost use Rattle.rate_matching.specs.Matrix.{heads_of};
ghost use Rattle.slots.specs.Circle.{sum_from, kept_on, missing, lacking_on, shown, stream_on, streams_on};
ghost use Rattle.kept_bits.specs.Circle.{missing_at, countable, readable, showable};
ghost use Rattle.kept_bits.specs.inner.Rows.{kept_below, kept_by, missing_below, missing_by, shown_at, AlongRow, Along, Streams, Stretch};

use rate_matching::table::column_at;
use rate_matching::{
    CirclePlace, MatrixPlace, StreamPlace, circle_length, column_heads, column_unit_at,
    matrix_place,
};

// 1 where a byte of a room lacks a bit.
fn missing(byte: u8) -> u8
    ensures { result ≡ missing byte }
{
    u8::from(byte > 1)
}

// How many of at most 255 bytes lack a bit. A sum, so that no byte costs a branch, and of bytes, so that many are added at a time.
fn count_few(bytes: &[u8]) -> u8
    requires { length bytes.now ≤ 255 }
    ensures { result ≡ sum_from (missing_at bytes.now) 0 (length bytes.now) }
{
    let mut n: u8 = 0;
    for byte in bytes {
        n += missing(*byte);
    }
    n
}

// How many of the bytes lack a bit.
pub fn count_missing(bytes: &[u8]) -> usize
    ensures { result ≡ sum_from (missing_at bytes.now) 0 (length bytes.now) }
{
    let mut n = 0;
    for part in bytes.chunks(192) {
        n += usize::from(count_few(part));
    }
    n
}

// The columns of a stream's matrix on a circle: the first place of each, in the order in which the matrix is written, and how many places further a row is.
#[derive(Clone, Copy)]
struct Columns<'a> {
    circle: &'a [u8],
    heads: &'a [CirclePlace; 32],
    step: usize,
    ghost small: { step ≤ 2 },
}

// Fills `out` with what the circle keeps `below` places below the heads of the columns, from column `from` on.
fn gather_row(of: Columns, below: usize, from: usize, out: &mut [u8])
    requires { AlongRow (length of.circle.now) of.heads.now below from (length out.old) }
    ensures { out.new ≡ tab_from from (length out.old) (kept_below of.entry.circle.now of.entry.heads.now below) }
{
    for (k, byte) in out.iter_mut().enumerate() {
        let head = of.heads[from + k];
        *byte = of.circle[head.0 + below];
    }
}

// Fills `out` with what the circle keeps for the entries of the matrix from row `row` on, 32 a row.
// kept: no `chunks_mut`, since a proof knows of the chunks' slice afterwards only how long it is.
fn gather_rows(of: Columns, row: usize, out: &mut [u8])
    requires { Along (length of.circle.now) of.heads.now of.step (32 * row) (length out.old) }
    ensures { out.new ≡ tab_from (32 * row) (length out.old) (kept_by of.entry.circle.now of.entry.heads.now of.entry.step) }
{
    let whole = out.len() / 32;
    // counted up, for by a product of the row each of the 32 columns would have a counter of its own
    let mut below = of.step * row;
    for r in 0..whole {
        let at = 32 * r;
        let end = at + 32;
        gather_row(of, below, 0, &mut out[at..end]);
        below += of.step;
    }
    let last = 32 * whole;
    gather_row(of, below, 0, &mut out[last..]);
}

// Fills `out` with what the circle keeps for the entries of the matrix from a place on.
fn gather(of: Columns, from: MatrixPlace, out: &mut [u8])
    requires { (from.column < 32) × Along (length of.circle.now) of.heads.now of.step (32 * from.row + from.column) (length out.old) }
    ensures { out.new ≡ tab_from (32 * from.row + from.column) (length out.old) (kept_by of.entry.circle.now of.entry.heads.now of.entry.step) }
{
    let left = 32 - from.column;
    let below = of.step * from.row;
    if out.len() <= left {
        gather_row(of, below, from.column, out);
        return;
    }
    gather_row(of, below, from.column, &mut out[..left]);
    gather_rows(of, from.row + 1, &mut out[left..]);
}

// Fills `out` with what the circle keeps for the places of a stream of d places from `from` on: row by row, since a row's places lie in the columns' order.
fn gather_stream(circle: &[u8], d: usize, from: StreamPlace, out: &mut [u8])
    requires { Stretch (length circle.now) d from.0 from.1 (length out.old) }
    ensures { out.new ≡ tab_from from.1 (length out.old) (kept_on circle.now d from.0) }
{
    let heads = column_heads(d, from.0).unwrap();
    let step = if from.0 == 0 { 1 } else { 2 };
    let of = Columns {
        circle,
        heads: &heads,
        step,
    };
    gather(of, matrix_place(d, from).unwrap(), out);
}

// Whether streams of d places have n places from `from` on, and a circle of `long` places has them.
fn readable(long: usize, d: usize, from: StreamPlace, n: usize) -> bool
    ensures { result ≡ readable long d from n }
{
    let Some(whole) = circle_length(d) else {
        return false;
    };
    let reach = if from.0 == 0 { whole / 3 } else { whole };
    let left = d.saturating_sub(from.1);
    let there = (44 <= d) & (d % 8 == 4) & (from.0 <= 2) & (n <= left) & (reach <= long);
    (from.1 < d) & there
}

// Fills `out` with what the circle keeps for the places of a stream from `from` on, where the circle has them all; else `out` stays.
pub fn read_stream(circle: &[u8], d: usize, from: StreamPlace, out: &mut [u8])
    ensures { out.new
        ≡ cond (readable (length circle.now) d from (length out.old))
        (tab_from from.1 (length out.old) (kept_on circle.now d from.0)) out.old }
{
    if readable(circle.len(), d, from, out.len()) {
        gather_stream(circle, d, from, out);
    }
}

// How many entries of row `row` of the matrix of stream 0 of d places lack a bit, from column `from` to column `to`.
fn count_row(circle: &[u8], d: usize, row: usize, from: usize, to: usize) -> usize
    requires { Streams d × (from ≤ to) × AlongRow (length circle.now) (heads_of (rows d) 0) row from (to - from) }
    ensures { result ≡ sum_from (missing_below circle.now (heads_of (rows d) 0) row) from (to - from) }
{
    let mut n = 0;
    for p in from..to {
        let head = column_unit_at(d, 0, column_at(p)).unwrap().begin;
        n += usize::from(missing(circle[head.0 + row]));
    }
    n
}

// How many of its entries lack a bit before a place. They are few, so that each column's head is worked out where it is asked for.
fn count_before(circle: &[u8], d: usize, place: MatrixPlace) -> usize
    requires { Streams d × (place.column < 32) × Along (length circle.now) (heads_of (rows d) 0) 1 0 (32 * place.row + place.column) }
    ensures { result ≡ sum_from (missing_by circle.now (heads_of (rows d) 0)) 0 (32 * place.row + place.column) }
{
    let mut n = 0;
    for above in 0..place.row {
        n += count_row(circle, d, above, 0, 32);
    }
    n + count_row(circle, d, place.row, 0, place.column)
}

// How many data places of a code block of size k lack a bit, the first f being filler. The units of stream 0 lie side by side from place 0 on, so that all of
// them are counted, many places at a time, and what is no data place is taken off: the dummies and the filler, which are the first entries of the matrix, and
// the tail bits, the last.
fn lacking_on(circle: &[u8], k: usize, f: usize) -> usize
    requires { (f ≤ k) × Stretch (length circle.now) (k + 4) 0 f (k - f) }
    ensures { result ≡ lacking_on circle.now k f }
{
    let d = k + 4;
    let end = column_unit_at(d, 0, 31).unwrap().end;
    let all = count_missing(&circle[..end.0]);
    let data = matrix_place(d, StreamPlace(0, f)).unwrap();
    let front = count_before(circle, d, data);
    let tail = matrix_place(d, StreamPlace(0, k)).unwrap();
    let back = count_row(circle, d, tail.row, tail.column, 32);
    all - front - back
}

// The same for any numbers: 0 where there is no such code block, or the circle is too short for it.
// kept: no Option, since reception promises this number as it is.
pub fn lacking_of(circle: &[u8], k: usize, f: usize) -> usize
    ensures { result ≡ cond (countable (length circle.now) k f) (lacking_on circle.now k f) 0 }
{
    let Some(places) = circle_length(k.saturating_add(4)) else {
        return 0;
    };
    let there = (40 <= k) & (k % 8 == 0) & (f <= k) & (places <= circle.len());
    if there {
        return lacking_on(circle, k, f);
    }
    0
}

// What Streams shows of a byte: the bit where one was heard, else 2.
fn shown(byte: u8) -> u8
    ensures { result ≡ shown byte }
{
    byte.min(2)
}

// Shows each byte of a run.
fn show(run: &mut [u8])
    ensures { run.new ≡ tab (length run.old) (shown_at run.old) }
{
    for byte in run.iter_mut() {
        *byte = shown(*byte);
    }
}

// Fills `out` with the run of stream s, of streams of d places. The first f are filler, which streams 0 and 1 do not have.
fn stream(circle: &[u8], d: usize, s: usize, f: usize, out: &mut [u8])
    requires { (f ≤ d) × (length out.old ≡ d) × Stretch (length circle.now) d s 0 d }
    ensures { out.new ≡ tab d (stream_on circle.now d f s) }
{
    gather_stream(circle, d, StreamPlace(s, 0), out);
    show(out);
    if s < 2 {
        out[..f].fill(0);
    }
}

// Writes the three runs of d bytes over the front of `out`.
// kept: no `chunks_exact_mut`, since a proof knows of the chunks' slice afterwards only how long it is.
fn put_streams(circle: &[u8], d: usize, f: usize, out: &mut [u8])
    requires { (f ≤ d) × (3 * d ≤ length out.old) × Stretch (length circle.now) d 2 0 d }
    ensures { out.new ≡ streams_on circle.now d f ++ drop (3 * d) out.old }
{
    for s in 0..3 {
        let at = s * d;
        let end = at + d;
        stream(circle, d, s, f, &mut out[at..end]);
    }
}

// The same where the circle has such streams, f of whose places at most all are filler, and `out` has room for them; else `out` stays.
pub fn three_streams(circle: &[u8], d: usize, f: usize, out: &mut [u8])
    ensures { out.new
        ≡ cond (showable (length circle.now) d f (length out.old))
        (streams_on circle.now d f ++ drop (3 * d) out.old) out.old }
{
    let there = readable(circle.len(), d, StreamPlace(2, 0), d);
    if there & (f <= d) & (d <= out.len() / 3) {
        put_streams(circle, d, f, out);
    }
}
