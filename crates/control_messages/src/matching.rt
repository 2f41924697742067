// Rate matching of clause 5.3.3.4, which is that of clause 5.1.4.2: the three coded streams go through the same columns, so that the bytes with
// three coded bits each go through them once.
ghost use Rattle.std.specs.Prelude.{◌≡◌, ◌++◌, ◌+◌, ◌<◌, length, take, drop};
ghost use Rattle.laws.specs.Lists.{tab};
ghost use Rattle.rate_matching.specs.Walk.{turn_after_turn};
ghost use Rattle.control_messages.specs.Working.{Sized, in_columns, bit_at, one_turn};

// Fills `out` with the turn of the circle, over and over, of the first `d` bytes of `coded`.
pub(crate) fn rate_matching(coded: &[u8; 80], d: usize, out: &mut [u8])
    requires { Sized d }
    ensures { out.new ≡ tab (length out.old) (turn_after_turn (one_turn d (in_columns d coded.now))) }
{
    let mut taken = [0u8; 80];
    interleave(coded, d, &mut taken);
    let mut ring = [0u8; 240];
    put_streams(&taken, d, &mut ring);
    let n = d + d + d;
    bit_selection::turn_after_turn(&ring[..n], out);
}

// The first `d` bytes of `coded` in the order of the sub-block interleaver, dummies left out.
// kept: one loop that counts column and row by hand: `for` over the columns and over their rows would be two functions that hand `n` and `taken` to
// and fro, and `for` over all places would divide at each.
fn interleave(coded: &[u8; 80], d: usize, taken: &mut [u8])
    requires { Sized d × (length taken.old ≡ 80) }
    ensures { taken.new ≡ in_columns d coded.now ++ drop d taken.old }
{
    let rows = (d + 31) / 32;
    let dummies = 32 * rows - d;
    let columns = rate_matching::table::columns();
    let mut n = 0;
    let mut c = 0;
    let mut q = 0;
    while c < 32 {
        let y = (columns[(c + 16) % 32] as usize) + 32 * q;
        if dummies <= y {
            taken[n] = coded[y - dummies];
            n += 1;
        }
        q += 1;
        if q == rows {
            q = 0;
            c += 1;
        }
    }
}

// The turn of `d` bytes at the front of `ring`: stream after stream. Each is written with what stands behind its `d` bits, and the next one over that.
fn put_streams(taken: &[u8; 80], d: usize, ring: &mut [u8])
    requires { Sized d × (length ring.old ≡ 240) }
    ensures { take (d + d + d) ring.new ≡ one_turn d taken.now }
{
    put_stream(taken, 0, &mut ring[..80]);
    let second = d + 80;
    put_stream(taken, 1, &mut ring[d..second]);
    let from = d + d;
    let third = from + 80;
    put_stream(taken, 2, &mut ring[from..third]);
}

// Bit `s` of each byte.
fn put_stream(taken: &[u8; 80], s: u32, part: &mut [u8])
    requires { (s < 3) × (length part.old ≡ 80) }
    ensures { part.new ≡ tab 80 (bit_at taken.now s) }
{
    for i in 0..80 {
        part[i] = (taken[i] >> s) & 1;
    }
}
