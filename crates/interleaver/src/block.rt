// The bits of a code block in the order in which the second encoder takes them.
ghost use Rattle.std.specs.Prelude.{◌≡◌, ◌+◌, ◌%◌, ◌<◌};
ghost use Rattle.interleaver.specs.Into.{interleaved_into, bits_by, Walkable};

use crate::{fours, table};

// Writes the K bits of `c` into `out` in the order Π of a row of the table. Writes nothing where the table has no such row or
// a slice has not K entries.
pub fn interleave(row: usize, c: &[u8], out: &mut [u8])
    ensures { out.new ≡ interleaved_into row c.now out.old }
{
    let k = c.len();
    if !table::has_size(row, k) {
        return;
    }
    if out.len() != k {
        return;
    }
    let f1 = table::f1_at(row);
    let f2 = table::f2_at(row);
    if fours::all_bits(c) {
        fours::interleave_bits(f1, f2, c, out);
    } else {
        walk(k, f1, f2, c, out);
    }
}

// Any bytes, one by one. The places by counters: p is Π(i), and g is the way from there to Π(i + 1), which grows by 2·f2.
fn walk(k: usize, f1: usize, f2: usize, c: &[u8], out: &mut [u8])
    requires { Walkable k f1 f2 c.now out.old }
    ensures { out.new ≡ bits_by k f1 f2 c.now }
{
    let step = reduced(2 * f2, k);
    let mut g = reduced(f1 + f2, k);
    let mut p = 0;
    for bit in out.iter_mut() {
        *bit = c[p];
        p = reduced(p + g, k);
        g = reduced(g + step, k);
    }
}

// x mod k, for x below 2·k: one comparison in the place of a division.
pub(crate) fn reduced(x: usize, k: usize) -> usize
    requires { x < k + k }
    ensures { result ≡ x % k }
{
    if x < k { x } else { x - k }
}
