// Channel coding of clause 5.3.3.3: the tail biting convolutional code of clause 5.1.3.1, its three coded bits side by side in a byte.
ghost use Rattle.std.specs.Prelude.{◌≡◌, ◌<◌, length};
ghost use Rattle.laws.specs.Lists.{tab};
ghost use Rattle.control_messages.specs.Working.{three};

// The coded bits of each bit; the bits stand behind the six with which the register starts. All 80 bytes are filled, so that the loop's length is
// known to the compiler, which then works on many bytes at once.
pub(crate) fn channel_coding(bits: &[u8; 86], coded: &mut [u8])
    requires { length coded.old ≡ 80 }
    ensures { coded.new ≡ tab 80 (three bits.now) }
{
    for k in 0..80 {
        coded[k] = three(bits, k);
    }
}

// The three coded bits of the bit at place k + 6: generators 133, 171 and 165 (octal).
#[tactic(auto, unfolding(crate::specs::Working::three))]
fn three(bits: &[u8; 86], k: usize) -> u8
    requires { k < 80 }
    ensures { result ≡ three bits.now k }
{
    let x = bits[k + 6];
    let x1 = bits[k + 5];
    let x2 = bits[k + 4];
    let x3 = bits[k + 3];
    let x4 = bits[k + 2];
    let x5 = bits[k + 1];
    let x6 = bits[k];
    (x ^ x2 ^ x3 ^ x5 ^ x6) | ((x ^ x1 ^ x2 ^ x3 ^ x6) << 1) | ((x ^ x1 ^ x2 ^ x4 ^ x6) << 2)
}
