// The mapping functions: where a unit of the circle lies and which stream places it holds, and where the columns of a stream's matrix lie, clauses 5.1.4.1.1
// and 5.1.4.1.2.
ghost use Rattle.std.specs.Prelude.{◌≡◌, ◌*◌, ◌≤◌, ◌<◌};
ghost use Rattle.rate_matching.specs.SubBlocks.{rows, rows_before};
ghost use Rattle.rate_matching.specs.Places.{circle_place};
ghost use Rattle.rate_matching.specs.Matrix.{length_within, column_head, heads_of, heads_within, matrix_within};
ghost use Rattle.rate_matching.specs.Units.{column_unit, pair_unit, unit_within, column_within, pair_within};

use crate::table::column_at;
use crate::{CirclePlace, MatrixPlace, StreamPlace, Unit};

// The largest D: that of K = 6,144.
pub const LONGEST: usize = 6148;

// The rows of the matrix, R.
// kept: no `div_ceil`, here and in `rows_before`: it is asked for in each unit, and with it the matcher of a short block took 27 ms in the place of 22.
pub fn rows_of(d: usize) -> usize
    ensures { result ≡ rows d }
{
    d / 32 + (d % 32 + 31) / 32
}

// The places of the circle of streams of d places, 96·R, where a code block can have such streams.
pub fn circle_length(d: usize) -> Option<usize>
    ensures { result ≡ length_within d }
{
    if d > LONGEST {
        return None;
    }
    Some(96 * rows_of(d))
}

// How many of the places p, p + 32, p + 64, .. lie before place i: the rows of a column that are above it.
fn rows_before(i: usize, p: usize) -> usize
    ensures { result ≡ rows_before i p }
{
    if i <= p { 0 } else { (i - p - 1) / 32 + 1 }
}

// Column c of stream 0: its bits begin behind the dummies and the filler.
// kept: no struct of d and the filler, since the public functions take them as numbers and would make it for one call each.
fn column_unit(d: usize, filler: usize, c: usize) -> Unit
    requires { (d ≤ 6148) × (filler < d) × (c < 32) }
    ensures { result ≡ column_unit d filler c }
{
    let rows = rows_of(d);
    let dummies = 32 * rows - d;
    let p = column_at(c);
    let row = rows_before(dummies + filler, p);
    let begin = CirclePlace(c * rows);
    let both = CirclePlace(begin.0 + row);
    let first = StreamPlace(0, p + 32 * row - dummies);
    Unit {
        begin,
        alone: both,
        both,
        end: CirclePlace(begin.0 + rows),
        early: first,
        first,
    }
}

// Column c of streams 1 and 2. Stream 2 has no filler and is read one further, so that its bits begin earlier; the last place of column 31 wraps to a dummy.
pub(crate) fn pair_unit(d: usize, filler: usize, c: usize) -> Unit
    requires { (d ≤ 6148) × (filler < d) × (c < 32) }
    ensures { result ≡ pair_unit d filler c }
{
    let rows = rows_of(d);
    let dummies = 32 * rows - d;
    let p = column_at(c);
    let lone = rows_before(dummies, p + 1);
    let row = rows_before(dummies + filler, p);
    let begin = CirclePlace(32 * rows + c * (2 * rows));
    Unit {
        begin,
        alone: CirclePlace(begin.0 + (2 * lone + 1)),
        both: CirclePlace(begin.0 + 2 * row),
        end: CirclePlace(begin.0 + (2 * rows - p / 31)),
        early: StreamPlace(2, p + 1 + 32 * lone - dummies),
        first: StreamPlace(1, p + 32 * row - dummies),
    }
}

// Unit u of the circle of streams of d places, the first `filler` of streams 0 and 1 absent, where there is such a unit.
pub fn unit_at(d: usize, filler: usize, u: usize) -> Option<Unit>
    ensures { result ≡ unit_within d filler u }
{
    if u < 32 {
        return column_unit_at(d, filler, u);
    }
    pair_unit_at(d, filler, u - 32)
}

// The unit of column c of stream 0, unit c, and that of column c of streams 1 and 2, unit 32 + c. A loop over one kind of unit asks for these: they are
// small enough that the compiler takes them into the loop and works out once what all units share.
pub fn column_unit_at(d: usize, filler: usize, c: usize) -> Option<Unit>
    ensures { result ≡ column_within d filler c }
{
    let there = (d <= LONGEST) & (filler < d) & (c < 32);
    if !there {
        return None;
    }
    Some(column_unit(d, filler, c))
}

pub fn pair_unit_at(d: usize, filler: usize, c: usize) -> Option<Unit>
    ensures { result ≡ pair_within d filler c }
{
    let there = (d <= LONGEST) & (filler < d) & (c < 32);
    if !there {
        return None;
    }
    Some(pair_unit(d, filler, c))
}

// Where the columns of a stream's matrix lie on the circle, the first place of each, in the order in which the matrix is written, where
// there is such a stream. A row is one place further in stream 0, and two in streams 1 and 2, which stand by turns.
pub fn column_heads(d: usize, stream: usize) -> Option<[CirclePlace; 32]>
    ensures { result ≡ heads_within d stream }
{
    let there = (d <= LONGEST) & (0 < d) & (stream <= 2);
    if !there {
        return None;
    }
    Some(heads_of(d, stream))
}

// The same, of a stream that is there. Its 32 units lie side by side and are as long as one another, so that the first two tell where all begin.
fn heads_of(d: usize, stream: usize) -> [CirclePlace; 32]
    requires { (0 < d) × (d ≤ 6148) × (stream ≤ 2) }
    ensures { result ≡ heads_of (rows d) stream }
{
    let first = head_in(d, stream, 0);
    let width = head_in(d, stream, 1).0 - first.0;
    let mut heads = [first; 32];
    for p in 0..32 {
        heads[p] = CirclePlace(first.0 + column_at(p) * width);
    }
    heads
}

// Where column c of a stream begins in its unit: streams 1 and 2 stand by turns, stream 1 first.
fn head_in(d: usize, stream: usize, c: usize) -> CirclePlace
    requires { (0 < d) × (d ≤ 6148) × (stream ≤ 2) × (c < 32) }
    ensures { result ≡ circle_place (column_head (rows d) stream c) }
{
    if stream == 0 {
        return column_unit(d, 0, c).begin;
    }
    CirclePlace(pair_unit(d, 0, c).begin.0 + (stream - 1))
}

// The row and the column of the matrix where a stream place stands, as the matrix is written; of stream 2, which is read one further, where the place before it
// does. None where there is no such place, or no dummy before it.
pub fn matrix_place(d: usize, place: StreamPlace) -> Option<MatrixPlace>
    ensures { result ≡ matrix_within d place }
{
    let there = (d <= LONGEST) & (d % 32 != 0) & (place.0 <= 2) & (place.1 < d);
    if !there {
        return None;
    }
    let y = 32 * rows_of(d) - d + place.1 - place.0 / 2;
    Some(MatrixPlace {
        row: y / 32,
        column: y % 32,
    })
}
