// The constituent encoders of clause 5.1.3.2.1 eight steps at a time. Eight bytes are one number, the first lowest, and a step is a shift
// by eight.
ghost use Rattle.std.specs.Prelude.{◌≡◌, ◌^◌, ◌<◌, length};
ghost use Rattle.turbo.specs.Encoder.{parities, after};
ghost use Rattle.turbo.specs.inner.Eight.{bytes_of, registers_of, times, reach, encoded_front, front_end};

use crate::Registers;

// Eight bytes as one number.
fn word_of(bits: &[u8]) -> u64
    requires { length bits.now ≡ 8 }
    ensures { bytes_of 8 result ≡ bits.now }
{
    u64::from_le_bytes(*bits.first_chunk().unwrap())
}

// Eight bytes divided by g0 = 1 + D^2 + D^3: multiplied by g0 and by its square, as the fourth power is 1 in eight steps.
fn divided(x: u64) -> u64
    ensures { times 16 24 result ≡ x }
{
    let once = x ^ (x << 16) ^ (x << 24);
    once ^ (once << 32) ^ (once << 48)
}

// Eight steps of an encoder in place: each input byte gives way to its output byte. `held` are the three bytes in the register, the oldest
// lowest; gives those that it holds then.
fn eight_steps(held: u64, bits: &mut [u8]) -> u64
    requires { (held < 2 ^ 24) × (length bits.old ≡ 8) }
    ensures small { result < 2 ^ 24 }
    ensures outputs { bits.new ≡ parities (registers_of held) bits.old }
    ensures registers { registers_of result ≡ after (registers_of held) bits.old }
{
    let entering = divided(word_of(bits) ^ held ^ (held >> 8));
    let leaving = entering ^ ((entering << 8) ^ (held >> 16)) ^ ((entering << 24) ^ held);
    *bits.first_chunk_mut().unwrap() = leaving.to_le_bytes();
    entering >> 40
}

// The registers whose bytes are in `held`.
fn registers_of(held: u64) -> Registers
    ensures { result ≡ registers_of held }
{
    let [d3, d2, d1, ..] = held.to_le_bytes();
    Registers { d1, d2, d3 }
}

// Both encoders, each in place, as far as both have eight bytes more, and their registers then. They go side by side, as neither waits for the other.
pub fn encode_both(first: &mut [u8], second: &mut [u8]) -> (Registers, Registers)
    ensures one { first.new ≡ encoded_front (reach first.old second.old) first.old }
    ensures two { second.new ≡ encoded_front (reach first.old second.old) second.old }
    ensures ends { (result.0 ≡ front_end (reach first.old second.old) first.old)
        × (result.1 ≡ front_end (reach first.old second.old) second.old) }
{
    let mut s: u64 = 0;
    let mut t: u64 = 0;
    for turn in 0..first.len().min(second.len()) / 8 {
        let i = 8 * turn;
        s = eight_steps(s, &mut first[i..i + 8]);
        t = eight_steps(t, &mut second[i..i + 8]);
    }
    (registers_of(s), registers_of(t))
}
