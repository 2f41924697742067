// Check bits of clause 5.1.1: the remainder of a run of bits, and its bits put at the front of a slice.
#![tactic(auto)]

mod generators;

ghost use Rattle.std.specs.Prelude.{◌≡◌, ◌++◌, ◌+◌, ◌*◌, ◌%◌, ◌^◌, ◌≤◌, ◌<◌, IfSome, length, get_or, take, drop};
ghost use Rattle.laws.specs.Bits.{bits_of};
ghost use Rattle.check_bits.specs.CheckBits.{crc_from, crc, g_crc24a, g_crc24b, g_crc16};
ghost use Rattle.check_bits.specs.inner.Stride.{FewBits, entries, word_of, lowest};
ghost use Rattle.check_bits.specs.Put.{put_bits, put_check_bits, put_check_bits16};

use generators::Generator;

// The bits of eight bytes, taken as one number, that are set where a byte is neither 0 nor 1.
const ABOVE_ONE: u64 = 0xFEFE_FEFE_FEFE_FEFE;

// The transport check goes on with `bits` from an earlier remainder, which is 0 before the first bit. A number of more than 24 bits, which is no
// remainder, goes on as the register would.
pub fn crc24a(from: u32, bits: &[u8]) -> u32
    ensures { result ≡ crc_from 24 g_crc24a from bits.now }
{
    generators::crc24a().remainder(from, bits)
}

// The transport check of bits that lie in two slices: it goes on with `second` from the remainder of `first`.
pub fn crc24a_two(first: &[u8], second: &[u8]) -> u32
    ensures { result ≡ crc 24 g_crc24a (first.now ++ second.now) }
{
    let s = crc24a(0, first);
    crc24a(s, second)
}

// The check of a code block's bits goes on in the same way; a code block that has one is long.
pub fn crc24b(from: u32, bits: &[u8]) -> u32
    ensures { result ≡ crc_from 24 g_crc24b from bits.now }
{
    generators::crc24b().remainder(from, bits)
}

// The check of a control message's payload goes on from an earlier remainder.
pub fn crc16(from: u32, bits: &[u8]) -> u32
    ensures { result ≡ crc_from 16 g_crc16 from bits.now }
{
    one_by_one(16, 0x1021, from, bits)
}

// kept: that a register has 24 bits stands in five contracts, and not in a type, which each shift and each sum would take apart and make again.
impl Generator {
    // The register after `bits`, from any number on. The bits by which the length is over a multiple of 24 go first, the others follow in strides.
    fn remainder(&self, from: u32, bits: &[u8]) -> u32
        ensures { result ≡ crc_from 24 self.now.polynomial from bits.now }
    {
        if 0xFF_FFFF < from || bits.len() < 8 {
            return one_by_one(24, self.polynomial, from, bits);
        }
        if bits.len() < 24 {
            return self.few_bits(from, bits);
        }
        let k = bits.len() % 24;
        let s = self.leading(from, k, bits);
        self.strides(s, &bits[k..])
    }

    // The register after the first `k` bits, from the register `from` on: they are the highest of 24 gathered bits.
    fn leading(&self, from: u32, k: usize, bits: &[u8]) -> u32
        requires { (k < 24) × (24 ≤ length bits.now) × (from < 2 ^ 24) }
        ensures { result ≡ crc_from 24 self.now.polynomial from (take k bits.now) }
    {
        let Some(x) = gathered(bits, 0) else {
            return one_by_one(24, self.polynomial, from, &bits[..k]);
        };
        self.short_stride(from, k, x >> (24 - k))
    }

    // The register after 8 to 23 bits, from the register `from` on.
    fn few_bits(&self, from: u32, bits: &[u8]) -> u32
        requires { (8 ≤ length bits.now) × (length bits.now < 24) × (from < 2 ^ 24) }
        ensures { result ≡ crc_from 24 self.now.polynomial from bits.now }
    {
        let Some(x) = gathered_few(bits) else {
            return one_by_one(24, self.polynomial, from, bits);
        };
        self.short_stride(from, bits.len(), x)
    }

    // The register after the `k` bits of `x`, from the register `from` on, in one stride: its highest `k` bits and the data bits go through the
    // table together, and its other bits only move up.
    fn short_stride(&self, from: u32, k: usize, x: u32) -> u32
        requires { (k < 24) × (from < 2 ^ 24) × (x < 2 ^ k) }
        ensures { result ≡ crc_from 24 self.now.polynomial from (bits_of k x) }
    {
        ((from << k) & 0xFF_FFFF) ^ passed(self.near, (from >> (24 - k)) ^ x)
    }

    // The register after `bits`, from the register `from` on: 48 bits a turn, as long as each byte is 0 or 1. By linearity the register goes on
    // with the first 24 of them through 48 zeros and the other 24 by themselves, so that a turn waits for the register once.
    fn strides(&self, from: u32, bits: &[u8]) -> u32
        requires { from < 2 ^ 24 }
        ensures { result ≡ crc_from 24 self.now.polynomial from bits.now }
    {
        let mut s = from;
        let mut left = bits;
        // kept: no `chunks_exact`, since the bits from the first that is none on go one by one, and those are what is left.
        while 48 <= left.len() {
            let (Some(x), Some(y)) = (gathered(left, 0), gathered(left, 24)) else {
                break;
            };
            s = passed(self.far, s ^ x) ^ passed(self.near, y);
            left = &left[48..];
        }
        self.last_stride(s, left)
    }

    // The register after `bits`, from the register `from` on: 24 bits at once, where there are as many and each byte of them is 0 or 1, and the
    // others one by one.
    fn last_stride(&self, from: u32, bits: &[u8]) -> u32
        requires { from < 2 ^ 24 }
        ensures { result ≡ crc_from 24 self.now.polynomial from bits.now }
    {
        if bits.len() < 24 {
            return one_by_one(24, self.polynomial, from, bits);
        }
        let Some(x) = gathered(bits, 0) else {
            return one_by_one(24, self.polynomial, from, bits);
        };
        let s = passed(self.near, from ^ x);
        one_by_one(24, self.polynomial, s, &bits[24..])
    }
}

// The register `s` after the zeros that the table is for: by linearity the sum of what its six times four bits give. Each four have a row
// of the table, lent by itself, so that where it begins is not worked out anew in every turn.
fn passed(table: &[u32; 96], s: u32) -> u32
    ensures { result ≡ entries table.now s }
{
    // kept: six lines and no loop over the rows, since entries, which the contract names, has six terms
    let rows = &table[..];
    let a = entry(rows, s);
    let b = entry(&rows[16..], s >> 4);
    let c = entry(&rows[32..], s >> 8);
    let d = entry(&rows[48..], s >> 12);
    let e = entry(&rows[64..], s >> 16);
    let f = entry(&rows[80..], s >> 20);
    a ^ b ^ c ^ d ^ e ^ f
}

// The entry of a row for the lowest four bits of `s`.
fn entry(row: &[u32], s: u32) -> u32
    requires { 16 ≤ length row.now }
    ensures { result ≡ get_or row.now (s % 16) 0 }
{
    row[(s % 16) as usize]
}

// The 24 bits from `from` on as a number, the first highest, where each byte is 0 or 1.
fn gathered(bits: &[u8], from: usize) -> Option<u32>
    requires { from + 24 ≤ length bits.now }
    ensures { IfSome result (λ x. (x < 2 ^ 24) × (take 24 (drop from bits.now) ≡ bits_of 24 x)) }
{
    let a = eight(bits, from);
    let b = eight(bits, from + 8);
    let c = eight(bits, from + 16);
    if (a & ABOVE_ONE) | (b & ABOVE_ONE) | (c & ABOVE_ONE) != 0 {
        return None;
    }
    Some((((packed(a) << 8) | packed(b)) << 8) | packed(c))
}

// From 8 to 23 bits as a number, the first highest, where each byte is 0 or 1. The last eight are looked at as one word too, and of them those that
// no word before has are put behind the others, so that no bit costs a branch.
fn gathered_few(bits: &[u8]) -> Option<u32>
    requires { (8 ≤ length bits.now) × (length bits.now < 24) }
    ensures { IfSome result (λ x. FewBits bits.now x) }
{
    let k = bits.len();
    let a = eight(bits, 0);
    let z = eight(bits, k - 8);
    if (a & ABOVE_ONE) | (z & ABOVE_ONE) != 0 {
        return None;
    }
    if k < 16 {
        return Some(with_last(packed(a), packed(z), k - 8));
    }
    let b = eight(bits, 8);
    if b & ABOVE_ONE != 0 {
        return None;
    }
    Some(with_last((packed(a) << 8) | packed(b), packed(z), k - 16))
}

// The bits of `x`, and behind them the last `m` bits of `p`.
#[tactic(auto, using(crate::proofs::Few::unit_some, crate::proofs::Few::behind))]
fn with_last(x: u32, p: u32, m: usize) -> u32
    requires { (x < 2 ^ 16) × (m < 8) }
    ensures { result ≡ x * 2 ^ m + p % 2 ^ m }
{
    (x << m) | (p % (1u32 << m))
}

// The eight bytes from `from` on as one number, the first lowest.
fn eight(bits: &[u8], from: usize) -> u64
    requires { from + 8 ≤ length bits.now }
    ensures { result ≡ word_of (take 8 (drop from bits.now)) }
{
    u64::from_le_bytes(*bits[from..].first_chunk().unwrap())
}

// The lowest bits of the eight bytes of `w` side by side, the first byte's highest: in pairs, in fours, all eight.
fn packed(w: u64) -> u32
    ensures { result ≡ lowest w }
{
    let twos = w | (w << 9);
    let fours = twos | (twos << 18);
    let all = fours | (fours << 36);
    ((all >> 56) % 256) as u32
}

// The register of `length` bits after `bits`, from the register `from` on, first bit highest power: the standard's own loop, for any length
// and generator. A product takes the generator away, so that no bit costs a branch.
fn one_by_one(length: u32, generator: u32, from: u32, bits: &[u8]) -> u32
    requires { (0 < length) × (length ≤ 32) }
    ensures { result ≡ crc_from length generator from bits.now }
{
    let g = generator as u64;
    let top = length - 1;
    let mask = (1u64 << length) - 1;
    let mut s = from as u64;
    for bit in bits {
        let up = (s >> top) ^ (*bit as u64);
        s = ((s << 1) ^ (up * g)) & mask;
    }
    s as u32
}

// Writes the 24 check bits over the front of `out`, highest power first. A slice that is too short stays as it was.
#[tactic(auto, unfolding(crate::specs::Put::put_check_bits))]
pub fn put_check_bits(remainder: u32, out: &mut [u8])
    ensures { out.new ≡ put_check_bits remainder out.old }
{
    put_bits(24, remainder, out);
}

// The same of the 16 bits of a shorter check.
#[tactic(auto, unfolding(crate::specs::Put::put_check_bits16))]
pub fn put_check_bits_16(remainder: u32, out: &mut [u8])
    ensures { out.new ≡ put_check_bits16 remainder out.old }
{
    put_bits(16, remainder, out);
}

// Writes the lowest `length` bits of a remainder over the front of `out`, the highest first. A slice that is too short stays as it was.
#[tactic(auto, using(crate::proofs::Putting::finish))]
fn put_bits(length: usize, remainder: u32, out: &mut [u8])
    requires { length ≤ 32 }
    ensures { out.new ≡ put_bits length remainder out.old }
{
    if out.len() < length {
        return;
    }
    for place in 0..length {
        out[place] = ((remainder >> (length - 1 - place)) & 1) as u8;
    }
}
