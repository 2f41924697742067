// Numbers in bytes, the lowest byte first.
ghost use Rattle.std.specs.Prelude.{◌≡◌, ◌+◌, ◌≤◌, length};
ghost use Rattle.state_bytes.specs.Numbers.{low_bytes, numbers_over, number_from};

// The numbers one after another over the front of `out`, each in as many bytes as there are for it.
pub fn put_numbers(numbers: &[usize], out: &mut [u8])
    ensures { out.new ≡ numbers_over numbers.now out.old }
{
    if numbers.is_empty() {
        return;
    }
    let width = out.len() / numbers.len();
    let mut at = 0;
    for number in numbers {
        let end = at + width;
        put_number(*number, &mut out[at..end]);
        at = end;
    }
}

// One number over all bytes of `out`.
fn put_number(number: usize, out: &mut [u8])
    ensures { out.new ≡ low_bytes (length out.old) number }
{
    let mut rest = number;
    for i in 0..out.len() {
        out[i] = (rest % 256) as u8;
        rest = rest / 256;
    }
}

// The number of the eight bytes from `at` on.
pub(crate) fn number_at(bytes: &[u8], at: usize) -> usize
    requires { at + 8 ≤ length bytes.now }
    ensures { result ≡ number_from 8 bytes.now at }
{
    usize::from_le_bytes([
        bytes[at],
        bytes[at + 1],
        bytes[at + 2],
        bytes[at + 3],
        bytes[at + 4],
        bytes[at + 5],
        bytes[at + 6],
        bytes[at + 7],
    ])
}
