// Packing where no place is above 3, as in every room that was unpacked: four places at a time by one product.
ghost use Rattle.std.specs.Prelude.{◌≡◌, true, ◌*◌, ◌≤◌, ◌<◌, length};
ghost use Rattle.laws.specs.Bits.{EachBelow};
ghost use Rattle.packing.specs.Packing.{four_in, packed_over};

// Whether two bits are enough for each place. The largest is looked for, so that the loop runs many places at a time.
pub(crate) fn all_small(places: &[u8]) -> bool
    ensures { result ≡ true → EachBelow 4 places.now }
{
    let mut most: u8 = 0;
    for place in places {
        most = most.max(*place);
    }
    most <= 3
}

// The byte of four such places. The factor brings them side by side: ten bits less apart than they stand in the word.
pub(crate) fn small_four(a: u8, b: u8, c: u8, d: u8) -> u8
    requires { (a < 4) × (b < 4) × (c < 4) × (d < 4) }
    ensures { result ≡ four_in a b c d }
{
    let word = (a as u64) + (b as u64) * 256 + (c as u64) * 65536 + (d as u64) * 16777216;
    (word * 0x4010_0401 / 16777216 % 256) as u8
}
