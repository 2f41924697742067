// The coded block of a message and its circular repetition. A message is the number of its bits, o_0 lowest.
ghost use Rattle.std.specs.Prelude.{◌≡◌, ◌+◌, ◌%◌, ◌≤◌, ◌<◌, length};
ghost use Rattle.laws.specs.Bits.{AreBits};
ghost use Rattle.report_code.specs.Code.{block, control_bits};
ghost use Rattle.report_code.specs.Words.{number_of, message_bits, word_of};

// The control bits of a message of at most 11 bits, over the whole of `out`.
pub fn control_bits(message: u32, out: &mut [u8])
    ensures { out.new ≡ control_bits (message_bits 11 message) (length out.old) }
{
    let bits = coded_block(message);
    let length = out.len();
    for turn in 0..length.div_ceil(32) {
        let at = 32 * turn;
        let end = turn_end(at, length);
        let some = end - at;
        out[at..end].copy_from_slice(&bits[..some]);
    }
}

// The end of the turn of 32 that starts at `at`, in a run of `length`.
fn turn_end(at: usize, length: usize) -> usize
    requires { at < length }
    ensures { (at < result) × (result ≤ length) × (result ≤ at + 32) × (result < length → result ≡ at + 32) }
{
    if length - at < 32 { length } else { at + 32 }
}

// b_0, .., b_31: each the odd or even number of ones that message and table row share.
pub(crate) fn coded_block(message: u32) -> [u8; 32]
    ensures { result ≡ block (message_bits 11 message) }
{
    let rows = super::table::rows();
    let mut bits = [0u8; 32];
    for i in 0..32 {
        bits[i] = ((message & rows[i]).count_ones() % 2) as u8;
    }
    bits
}

// The same as one word, b_0 lowest.
pub(crate) fn coded_word(message: u32) -> u32
    ensures { result ≡ word_of message }
{
    packed(&coded_block(message))
}

// 32 bits as a word, the first lowest.
pub(crate) fn packed(bits: &[u8; 32]) -> u32
    requires { AreBits bits.now × (length bits.now ≡ 32) }
    ensures { result ≡ number_of bits.now }
{
    let mut word: u32 = 0;
    for i in (0..32).rev() {
        word = 2 * word + u32::from(bits[i]);
    }
    word
}
