// The places of rate matching, clause 5.1.4.1: a place in a stream and a place on the circle are two types, crossed only by the mapping functions.
#![tactic(auto)]

mod mapping;
mod shortened;
pub mod table;

pub use mapping::{
    LONGEST, circle_length, column_heads, column_unit_at, matrix_place, pair_unit_at, rows_of,
    unit_at,
};
pub use shortened::{cut_at, matchable, turn_length, turn_of};

// Which stream, 0 to 2, and the place in it, which runs to D.
// kept: fields without names, since reading makes a place as `StreamPlace(0, f)`.
#[derive(Clone, Copy)]
pub struct StreamPlace(pub usize, pub usize);

// A place on the circle, which runs to 96·R.
#[derive(Clone, Copy)]
pub struct CirclePlace(pub usize);

// Where a stream place stands in the matrix of clause 5.1.4.1.1, which is written row by row.
#[derive(Clone, Copy)]
pub struct MatrixPlace {
    pub row: usize,
    pub column: usize,
}

// A unit of the circle: a column of stream 0, or a column of streams 1 and 2 by turns, which begins at `begin`. Every place from `both` to `end` holds a bit,
// and `both` holds the stream place `first`; row for row the stream place is 32 further. Before it, where stream 1 has dummies and filler, stream 2 stands
// alone at every second place from `alone` on, which holds the stream place `early`; a column of stream 0 has no such place.
#[derive(Clone, Copy)]
pub struct Unit {
    pub begin: CirclePlace,
    pub alone: CirclePlace,
    pub both: CirclePlace,
    pub end: CirclePlace,
    pub early: StreamPlace,
    pub first: StreamPlace,
}

// One turn of a circle by its 64 units, which are the 32 columns of stream 0 and the 32 of streams 1 and 2: from unit `start` to unit `whole`, then the
// first `rest` bits of unit `whole`, which the cut shortens, then from unit 0 to unit `start`.
#[derive(Clone, Copy)]
pub struct Turn {
    pub start: usize,
    pub whole: usize,
    pub rest: usize,
}
