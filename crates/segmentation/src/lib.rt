// Code block segmentation of clause 5.1.2.
#![tactic(auto)]

pub mod block;

ghost use Rattle.std.specs.Prelude.{◌≡◌, ◌+◌, ◌*◌, ◌≤◌, ◌<◌};
ghost use Rattle.interleaver.specs.Table.{row_count, size_at};
ghost use Rattle.segmentation.specs.Segmentation.{first_row};
ghost use Rattle.segmentation.specs.Sizes.{bad_size, segments_of, segments_for, sizes_answer};

use interleaver::table::{Found, row_for, size_at};
use refusals::Refusal;

// The segmentation of a block, in the names of the clause.
#[derive(Clone, Copy)]
pub struct Segments {
    // C
    pub blocks: usize,
    // C+ and K+
    pub longs: usize,
    pub long: usize,
    // C- and K-
    pub shorts: usize,
    pub short: usize,
    // F
    pub filler: usize,
    // the row of table 5.1.3-3 that has K+, counted from 0
    pub row: usize,
}

// The six numbers that 01 lists for a block size A.
// kept: Segments has them too, and the row; the contracts of sizes_for and of segments_for name the fields (sizes_of and segments_of)
#[derive(Clone, Copy)]
pub struct Sizes {
    pub blocks: usize,
    pub longs: usize,
    pub long: usize,
    pub shorts: usize,
    pub short: usize,
    pub filler: usize,
}

// The segmentation of a block of `a` bits; all numbers 0 where `a` is out of range.
pub fn segments_for(a: usize) -> Segments
    ensures { result ≡ segments_for a }
{
    // kept: numbers that are all 0, and no Option: the definition of segments_for gives no_segments there
    if bad_size(a) {
        return Segments {
            blocks: 0,
            longs: 0,
            long: 0,
            shorts: 0,
            short: 0,
            filler: 0,
            row: 0,
        };
    }
    let b = a + 24;
    if b <= 6144 { single(b) } else { several(b) }
}

// The segmentation of a block that lies in two slices, of `first` and `second` bits. The sum does not wrap: a wrong length that C hands over is refused.
pub fn segments_for_both(first: usize, second: usize) -> Segments
    ensures { result ≡ segments_for (first + second) }
{
    segments_for(first.saturating_add(second))
}

// The call Sizes of 01: the numbers of a block of `a` bits, or refusal 1.
#[tactic(auto, unfolding(crate::specs::Sizes::sizes_answer, crate::specs::Sizes::sizes_of, crate::specs::Sizes::segments_for, crate::specs::Sizes::segments_of))]
pub fn sizes_for(a: usize) -> Result<Sizes, Refusal>
    ensures { result ≡ sizes_answer a }
{
    if bad_size(a) {
        return Err(Refusal::BadLength);
    }
    let s = segments_for(a);
    Ok(Sizes {
        blocks: s.blocks,
        longs: s.longs,
        long: s.long,
        shorts: s.shorts,
        short: s.short,
        filler: s.filler,
    })
}

// A block of `a` bits is out of range.
#[tactic(auto, unfolding(crate::specs::Sizes::bad_size))]
fn bad_size(a: usize) -> bool
    ensures { result ≡ bad_size a }
{
    a == 0 || 30576 < a
}

// The segmentation of `b` bits that fit one code block.
fn single(b: usize) -> Segments
    requires { b ≤ 6144 }
    ensures { result ≡ segments_of b }
{
    // 6144 is the last K of the table, so there is such a row
    let found = row_for(b).unwrap();
    let long = found.size;
    Segments {
        blocks: 1,
        longs: 1,
        long,
        shorts: 0,
        short: 0,
        filler: long - b,
        row: found.row,
    }
}

// The segmentation of `b` bits that take several code blocks, each with its 24 check bits.
fn several(b: usize) -> Segments
    requires { (6144 < b) × (b ≤ 30600) }
    ensures { result ≡ segments_of b }
{
    // b / (Z - L)
    let blocks = b.div_ceil(6120);
    let need = b + blocks * 24;
    let found = first_row(blocks, need);
    let row = found.row;
    let long = found.size;
    // 40 is too small for K+ here, so there is a row before
    let short = size_at(row - 1);
    let shorts = (blocks * long - need) / (long - short);
    let longs = blocks - shorts;
    Segments {
        blocks,
        longs,
        long,
        shorts,
        short,
        filler: longs * long + shorts * short - need,
        row,
    }
}

// The first row of the table with blocks·K ≥ need.
fn first_row(blocks: usize, need: usize) -> Found
    requires { (0 < blocks) × (blocks ≤ 5) × (need ≤ blocks * 6144) }
    ensures { (result.row ≡ first_row blocks need 0 row_count) × (result.size ≡ size_at result.row) }
{
    // blocks·K ≥ need says the same as K ≥ the ceiling of need / blocks
    row_for(need.div_ceil(blocks)).unwrap()
}
