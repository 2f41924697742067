// Rooms a quarter the size: four places in a byte, the first in the top two bits, and the change of form of one room, both ways.
#![tactic(auto)]

mod opening;
mod small;

ghost use Rattle.std.specs.Prelude.{◌≡◌, ℕ, ◌+◌, ◌*◌, ◌/◌, ◌≤◌, ◌<◌, min, length, get_or};
ghost use Rattle.refusals.specs.Refusals.{number_in};
ghost use Rattle.packing.specs.Packing.{in_two_bits, four_in, four_apart, packed_over, unpacked_over};
ghost use Rattle.packing.specs.Store.{bytes_a_block, places_asked};
ghost use Rattle.packing.specs.Change.{bad_blocks, change_number, pack_number, pack_output, unpack_number, unpack_output};

pub use opening::{open_down_packed, open_packed};
use refusals::{Refusal, applied};
use slot_calls::states::PER_BLOCK;

// The bytes that a packed room has for one code block.
pub const PACKED_PER_BLOCK: usize = 4632;

// The bytes that a room has for one code block, in either form.
pub fn bytes_a_block(four: bool) -> usize
    ensures { result ≡ bytes_a_block four }
{
    if four { PACKED_PER_BLOCK } else { PER_BLOCK }
}

// How many places a store of `bytes` bytes keeps, as far as a call asks: no store needs more than 8 rooms of 5 code blocks.
pub fn places_asked(four: bool, bytes: usize) -> usize
    ensures { result ≡ places_asked four bytes }
{
    if four {
        4 * bytes.min(40 * PACKED_PER_BLOCK)
    } else {
        bytes
    }
}

// What two bits keep of a place: a value above 3 becomes 2, unheard.
fn in_two_bits(x: u8) -> u8
    ensures { result ≡ in_two_bits x }
{
    if x > 3 { 2 } else { x }
}

// The byte of four successive places.
fn four_in(a: u8, b: u8, c: u8, d: u8) -> u8
    ensures { result ≡ four_in a b c d }
{
    in_two_bits(a) * 64 + in_two_bits(b) * 16 + in_two_bits(c) * 4 + in_two_bits(d)
}

// Packs places over the front of `to`, as many bytes as there are of both.
pub fn pack_places(from: &[u8], to: &mut [u8])
    ensures { to.new ≡ packed_over (min (length from.now / 4) (length to.old)) from.now to.old }
{
    let n = (from.len() / 4).min(to.len());
    if small::all_small(from) {
        pack_by(small::small_four, n, from, to);
        return;
    }
    pack_by(four_in, n, from, to);
}

// Packs the first places over the first n bytes of `to`, each four by `byte`.
fn pack_by<F: Fn(u8, u8, u8, u8) -> u8>(byte: F, n: usize, from: &[u8], to: &mut [u8])
    requires counts { (4 * n ≤ length from.now) × (n ≤ length to.old) }
    requires may { (i : ℕ) → F.pre byte (get_or from.now (4 * i) 0) (get_or from.now (4 * i + 1) 0) (get_or from.now (4 * i + 2) 0) (get_or from.now (4 * i + 3) 0) }
    requires gives { (i x : ℕ) → i < n → x < 256 → F.post byte (get_or from.now (4 * i) 0) (get_or from.now (4 * i + 1) 0) (get_or from.now (4 * i + 2) 0) (get_or from.now (4 * i + 3) 0) x
        → x ≡ four_in (get_or from.now (4 * i) 0) (get_or from.now (4 * i + 1) 0) (get_or from.now (4 * i + 2) 0) (get_or from.now (4 * i + 3) 0) }
    ensures { to.new ≡ packed_over n from.now to.old }
{
    for i in 0..n {
        let j = 4 * i;
        to[i] = byte(from[j], from[j + 1], from[j + 2], from[j + 3]);
    }
}

// The four places of a byte, each in a byte of one word. The product has the byte four times, ten bits apart, so that each place stands six
// bits above where it belongs in one of them; four bytes are then written at a time, and many where the machine can.
fn apart(b: u8) -> u64
    ensures { result ≡ four_apart b }
{
    (b as u64 * 0x4010_0401 / 64) & 0x0303_0303
}

// Unpacks bytes over the front of `to`, as many as there are places for.
// kept: by `to_le_bytes` of the word a room takes three times as long.
pub fn unpack_places(from: &[u8], to: &mut [u8])
    ensures { to.new ≡ unpacked_over (min (length from.now) (length to.old / 4)) from.now to.old }
{
    let n = from.len().min(to.len() / 4);
    for i in 0..n {
        let w = apart(from[i]);
        let j = 4 * i;
        to[j] = (w % 256) as u8;
        to[j + 1] = (w / 256 % 256) as u8;
        to[j + 2] = (w / 65536 % 256) as u8;
        to[j + 3] = (w / 16777216 % 256) as u8;
    }
}

// M out of range.
// kept: `!(1..=5).contains(&m)` is longer, and says less of which end is asked first.
fn bad_blocks(m: usize) -> bool
    ensures { result ≡ bad_blocks m }
{
    m == 0 || m > 5
}

// The refusals of a change of form: M, and buffers of `from` and `to` bytes, of which a code block needs so many each.
fn change_admitted(
    m: usize,
    from: usize,
    to: usize,
    needed: usize,
    written: usize,
) -> Result<(), Refusal>
    requires { (needed ≤ 18528) × (written ≤ 18528) }
    ensures { number_in result ≡ change_number m from to (m * needed) (m * written) }
{
    applied(bad_blocks(m), Refusal::BadState)?;
    applied(from < m * needed, Refusal::TooShort)?;
    applied(to < m * written, Refusal::TooShort)
}

// Packs one room of M code blocks. A refusal writes nothing.
pub fn pack_room(m: usize, from: &[u8], to: &mut [u8]) -> Result<(), Refusal>
    ensures number { number_in result ≡ pack_number m (length from.now) (length to.old) }
    ensures output { to.new ≡ pack_output m from.now to.old }
{
    change_admitted(m, from.len(), to.len(), PER_BLOCK, PACKED_PER_BLOCK)?;
    let long = m * PER_BLOCK;
    let short = m * PACKED_PER_BLOCK;
    pack_places(&from[..long], &mut to[..short]);
    Ok(())
}

// Unpacks one room of M code blocks. A refusal writes nothing.
pub fn unpack_room(m: usize, from: &[u8], to: &mut [u8]) -> Result<(), Refusal>
    ensures number { number_in result ≡ unpack_number m (length from.now) (length to.old) }
    ensures output { to.new ≡ unpack_output m from.now to.old }
{
    change_admitted(m, from.len(), to.len(), PACKED_PER_BLOCK, PER_BLOCK)?;
    let long = m * PER_BLOCK;
    let short = m * PACKED_PER_BLOCK;
    unpack_places(&from[..short], &mut to[..long]);
    Ok(())
}
