// The bits of a code block, taken straight from the transport block, which lies in two slices.
ghost use Rattle.std.specs.Prelude.{cond, ◌++◌, ◌≡◌, ◌+◌, ◌-◌, ◌≤◌, eqb, ltb, length, take, drop};
ghost use Rattle.laws.specs.Bits.{bits_of};
ghost use Rattle.segmentation.specs.CodeBlocks.{payload};
ghost use Rattle.segmentation.specs.Into.{code_block_into, filled_with, start_of, Segmented, Room};

use crate::Segments;

// Writes code block `r` of the block whose bits are those of `first` and then those of `second`, with the transport check `remainder`, over
// `c`. Writes nothing where the length of the block is out of range, there is no such code block, or `c` has another length than it.
pub fn code_block(first: &[u8], second: &[u8], remainder: u32, r: usize, c: &mut [u8])
    ensures { c.new ≡ code_block_into (first.now ++ second.now) remainder r c.old }
{
    let s = crate::segments_for_both(first.len(), second.len());
    if r >= s.blocks {
        return;
    }
    if c.len() != size_of(s, r) {
        return;
    }
    if s.blocks == 1 {
        put_payload(first, second, remainder, s, r, c);
        return;
    }
    let end = c.len() - 24;
    put_payload(first, second, remainder, s, r, &mut c[..end]);
    let check = check_bits::crc24b(0, &c[..end]);
    check_bits::put_check_bits(check, &mut c[end..]);
}

// Writes the code block's payload over the whole of `c`: filler, the part of the block, and in the last code block the transport check.
fn put_payload(first: &[u8], second: &[u8], remainder: u32, s: Segments, r: usize, c: &mut [u8])
    requires { Room (first.now ++ second.now) s r c.old }
    ensures { c.new ≡ payload ((first.now ++ second.now) ++ bits_of 24 remainder) r }
{
    let zeros = filler_of(s, r);
    let len = first.len() + second.len();
    let from = start_of(len, s, r);
    if r + 1 < s.blocks {
        let to = from + (c.len() - zeros);
        fill_both(zeros, first, second, from, to, c);
    } else {
        let end = c.len() - 24;
        fill_both(zeros, first, second, from, len, c);
        check_bits::put_check_bits(remainder, &mut c[end..]);
    }
}

// Writes zeros, and after them the bits of the block from `from` to `to`, over the front of `c`. They are those that the first slice has of
// them and then those that the second has.
fn fill_both(zeros: usize, first: &[u8], second: &[u8], from: usize, to: usize, c: &mut [u8])
    requires { (from ≤ to) × (to ≤ length first.now + length second.now) × (zeros + (to - from) ≤ length c.old) }
    ensures { c.new ≡ filled_with zeros (take (to - from) (drop from (first.now ++ second.now))) c.old }
{
    let cut = first.len();
    let a = from.min(cut);
    let b = to.min(cut);
    fill(zeros, &first[a..b], c);
    let at = zeros + (b - a);
    let start = from - a;
    let end = to - b;
    octets::copy(&second[start..end], &mut c[at..]);
}

// Writes zeros, and `part` after them, over the front of `c`.
fn fill(zeros: usize, part: &[u8], c: &mut [u8])
    requires { zeros + length part.now ≤ length c.old }
    ensures { c.new ≡ filled_with zeros part.now c.old }
{
    c[..zeros].fill(0);
    octets::copy(part, &mut c[zeros..]);
}

// Where code block `r` begins to take of the `len` bits of the block. Long code blocks come last and are counted back from the end.
fn start_of(len: usize, s: Segments, r: usize) -> usize
    requires { Segmented len s r }
    ensures { result ≡ start_of (len + 24) r }
{
    if r == 0 {
        return 0;
    }
    if s.shorts <= r {
        return len + 24 - (s.blocks - r) * (s.long - 24);
    }
    r * (s.short - 24) - s.filler
}

// kept: these three are functions and no methods of Segments, since the crates above call them by their public names.
// K_r: the short code blocks come first.
pub fn size_of(s: Segments, r: usize) -> usize
    ensures { result ≡ cond (ltb r s.shorts) s.short s.long }
{
    if r < s.shorts { s.short } else { s.long }
}

// The filler bits of code block `r`.
pub fn filler_of(s: Segments, r: usize) -> usize
    ensures { result ≡ cond (eqb r 0) s.filler 0 }
{
    if r == 0 { s.filler } else { 0 }
}

// The row of table 5.1.3-3 that has K_r: the short size is that of the row before.
pub fn row_of(s: Segments, r: usize) -> usize
    ensures { result ≡ cond (ltb r s.shorts) (s.row - 1) s.row }
{
    if r >= s.shorts {
        return s.row;
    }
    if s.row == 0 {
        return 0;
    }
    s.row - 1
}
