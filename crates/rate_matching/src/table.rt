// The numbers of Table 5.1.4-1 by their rule, one for all three sub-block interleavers: the five bits of a column, read backwards.
ghost use Rattle.std.specs.Prelude.{◌≡◌};
ghost use Rattle.rate_matching.specs.Columns.{turned_round, column_table, column};

// The rule. In bytes, so that a loop over the columns runs many at a time.
fn turned(c: u8) -> u8
    ensures { result ≡ turned_round c }
{
    c % 2 * 16 + c / 2 % 2 * 8 + c / 4 % 2 * 4 + c / 8 % 2 * 2 + c / 16 % 2
}

// P(0), .., P(31), for a loop that reads them.
pub fn columns() -> [u8; 32]
    ensures { result ≡ column_table }
{
    let mut p = [0u8; 32];
    for c in 0..32u8 {
        p[c as usize] = turned(c);
    }
    p
}

// P(c), the original position of column c; 0 past the 32 columns.
// kept: no Option, since `column` of the clause's table is total, and the theorems of other crates on the places cite it so.
pub fn column_at(c: usize) -> usize
    ensures { result ≡ column c }
{
    if c < 32 {
        usize::from(turned(c as u8))
    } else {
        0
    }
}
