// The turbo encoder of clause 5.1.3.2: from a code block to its three streams.
#![tactic(auto)]

mod steps;

ghost use Rattle.std.specs.Prelude.{◌≡◌, cond, ◌++◌, ◌+◌, ◌≤◌, ◌<◌, length, drop};
ghost use Rattle.interleaver.specs.Table.{row_count, size_at};
ghost use Rattle.interleaver.specs.Place.{interleaved};
ghost use Rattle.turbo.specs.Encoder.{start, parities};
ghost use Rattle.turbo.specs.Streams.{without_filler, first_end, second_end, stream0, stream1, stream2};
ghost use Rattle.turbo.specs.Encode.{block_in, encodable, fit, Encodable, tail_of, completed};

use interleaver::{block, table};

// <NULL>: no bit stands here. A bit is 0 or 1.
const NULL: u8 = 2;

// The shift register of a constituent encoder, the newest bit first.
#[derive(Clone, Copy)]
pub struct Registers {
    pub d1: u8,
    pub d2: u8,
    pub d3: u8,
}

// The tail bits of a constituent encoder: x_K, x_K+1, x_K+2 and z_K, z_K+1, z_K+2.
#[derive(Clone, Copy)]
pub struct Tail {
    pub x: [u8; 3],
    pub z: [u8; 3],
}

impl Registers {
    // The tail from the registers after the last bit. The input is the feedback, so a zero enters at each of the three steps.
    fn tail(self) -> Tail
        ensures { result ≡ tail_of self }
    {
        Tail {
            x: [self.d2 ^ self.d3, self.d1 ^ self.d2, self.d1],
            z: [self.d1 ^ self.d3, self.d2, self.d1],
        }
    }
}

// Whether slices of these lengths are for the streams of a code block of the row's size, and its filler is within it.
fn is_encodable(row: usize, filler: usize, n0: usize, n1: usize, n2: usize) -> bool
    ensures { result ≡ encodable row filler n0 n1 n2 }
{
    if n0 < 4 {
        return false;
    }
    let k = n0 - 4;
    table::has_size(row, k) & (filler <= k) & (n1 == n0) & (n2 == n0)
}

// Puts the tail at the end of a stream and sets its filler places to <NULL>.
fn complete(d: &mut [u8], filler: usize, tail: [u8; 4])
    requires { filler + 4 ≤ length d.old }
    ensures { d.new ≡ completed filler d.old tail }
{
    let k = d.len() - 4;
    d[k..].copy_from_slice(&tail);
    d[..filler].fill(NULL);
}

// Both encoders, the second with the bits in the interleaver's order: their outputs at the fronts of `d1` and `d2`.
fn encode_parities(row: usize, c: &[u8], d1: &mut [u8], d2: &mut [u8]) -> (Tail, Tail)
    requires { (row < row_count) × (length c.now ≡ size_at row) × (length d1.old ≡ length c.now + 4) × (length d2.old ≡ length c.now + 4) }
    ensures first { d1.new ≡ parities start c.now ++ drop (length c.now) d1.old }
    ensures second { d2.new ≡ parities start (interleaved row c.now) ++ drop (length c.now) d2.old }
    ensures tails { (result.0 ≡ tail_of (first_end c.now)) × (result.1 ≡ tail_of (second_end row c.now)) }
{
    let k = c.len();
    d1[..k].copy_from_slice(c);
    block::interleave(row, c, &mut d2[..k]);
    let (first, second) = steps::encode_both(d1, d2);
    (first.tail(), second.tail())
}

// The three streams, where all lengths are right. Filler is absent from streams 0 and 1; stream 2 holds a bit at every place.
fn encode_streams(row: usize, filler: usize, d0: &mut [u8], d1: &mut [u8], d2: &mut [u8])
    requires { Encodable row filler (length d0.old) (length d1.old) (length d2.old) }
    ensures first { d0.new ≡ stream0 row filler (block_in d0.old) }
    ensures second { d1.new ≡ stream1 row filler (block_in d0.old) }
    ensures third { d2.new ≡ stream2 row (block_in d0.old) }
{
    let k = d0.len() - 4;
    let (first, second) = encode_parities(row, &d0[..k], d1, d2);
    complete(
        d0,
        filler,
        [first.x[0], first.z[1], second.x[0], second.z[1]],
    );
    complete(
        d1,
        filler,
        [first.z[0], first.x[2], second.z[0], second.x[2]],
    );
    complete(d2, 0, [first.x[1], first.z[2], second.x[1], second.z[2]]);
}

// Writes the three streams of the code block of a row's size that stands at the front of `d0`, whose first `filler` bits are filler; stream 0
// has the block's bits in place, so none is moved. Writes nothing where there is no such row or a length is another one.
pub fn encode(row: usize, filler: usize, d0: &mut [u8], d1: &mut [u8], d2: &mut [u8])
    ensures first { d0.new ≡
        cond (fit row filler d0.old d1.old d2.old)
        (stream0 row filler (block_in d0.old))
        d0.old }
    ensures second { d1.new ≡
        cond (fit row filler d0.old d1.old d2.old)
        (stream1 row filler (block_in d0.old))
        d1.old }
    ensures third { d2.new ≡
        cond (fit row filler d0.old d1.old d2.old)
        (stream2 row (block_in d0.old))
        d2.old }
{
    if is_encodable(row, filler, d0.len(), d1.len(), d2.len()) {
        encode_streams(row, filler, d0, d1, d2);
    }
}
