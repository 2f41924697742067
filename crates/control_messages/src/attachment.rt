// CRC attachment of clause 5.3.3.2: the payload, then its check mixed with the terminal number.
ghost use Rattle.std.specs.Prelude.{◌≡◌, ◌+◌, ◌^◌, ◌≤◌, ◌<◌, length, take};
ghost use Rattle.laws.specs.Bits.{AreBits};
ghost use Rattle.rate_matching.specs.Columns.{number_of};
ghost use Rattle.control_messages.specs.Attachment.{attached};
ghost use Rattle.control_messages.specs.Working.{with_lead};

// The payload over the front of `bits`, and behind it its check mixed with the terminal number.
pub(crate) fn crc_attachment(payload: &[u8], terminal: u16, bits: &mut [u8])
    requires { length bits.old ≡ length payload.now + 16 }
    ensures { bits.new ≡ attached payload.now terminal }
{
    let end = payload.len();
    bits[..end].copy_from_slice(payload);
    let check = check_bits::crc16(0, payload) ^ u32::from(terminal);
    check_bits::put_check_bits_16(check, &mut bits[end..]);
}

// The last six of the bits, with which the encoder's register starts, over the front of `led`, and behind them the bits.
pub(crate) fn with_lead(bits: &[u8], led: &mut [u8])
    requires { (6 ≤ length bits.now) × (length bits.now + 6 ≤ length led.old) }
    ensures { take (length bits.now + 6) led.new ≡ with_lead bits.now }
{
    let from = bits.len() - 6;
    led[..6].copy_from_slice(&bits[from..]);
    let end = 6 + bits.len();
    led[6..end].copy_from_slice(bits);
}

// The bits as a number, the first highest.
pub(crate) fn number_of(bits: &[u8]) -> u32
    requires { (length bits.now ≡ 16) × AreBits bits.now }
    ensures { result ≡ number_of bits.now }
{
    let mut n: u32 = 0;
    for bit in bits {
        n = n * 2 + u32::from(*bit);
    }
    n
}
