// Lines of decimal numbers in, tab-parted rows out: the text side of the sizes program of 01.
// kept: an output with the place where to go on, and no writer of its own: each contract says what is put at which place, and that nothing is where it does not fit.
#![tactic(auto)]

ghost use Rattle.std.specs.Prelude.{◌≡◌, cond, ◌∷◌, [], map, ◌+◌, ◌*◌, ◌<◌, ◌≤◌, min, length, take, drop};
ghost use Rattle.refusals.specs.Refusals.{number_of};
ghost use Rattle.lines.specs.Digits.{last_digits, hex_digit_ascii, IsDigitCount};
ghost use Rattle.lines.specs.Line.{line_of, read_on};
ghost use Rattle.lines.specs.Numbers.{put_numbers, end_numbers};
ghost use Rattle.lines.specs.Put.{put_over, put_at, end_at};
ghost use Rattle.lines.specs.Row.{decimal_of, row_of, tab, newline, refused, answer_fields, sizes_row};
ghost use Rattle.lines.specs.Text.{line_end, header, row_room, progress_of, rows_over};

use refusals::Refusal;
use segmentation::Sizes;

// Where a call of sizes_rows stopped: the first line that it has not answered, and the bytes that it wrote.
#[derive(Clone, Copy)]
pub struct Progress {
    pub next: usize,
    pub written: usize,
}

// The digits that a number of the sizes program may have.
const MOST_DIGITS: usize = 5;

// Every number of so many digits fits a usize.
const DIGITS_HELD: usize = 19;

// No number with its tab or newline is longer: 20 digits at most.
const NUMBER_ROOM: usize = 21;

// No row is longer: 7 fields of 20 digits at most, each with its tab or newline.
const ROW_ROOM: usize = 147;

// Reads a line of 1 to `most` digits, without its newline: the number, or none where it can't be read. A limit above 19 counts as 19.
#[tactic(auto, unfolding(crate::specs::Line::line_of, crate::specs::Line::too_long, crate::specs::Line::leading_zero))]
pub fn read_number(line: &[u8], most: usize) -> Option<usize>
    ensures { result ≡ line_of most line.now }
{
    if line.is_empty()
        || most.min(DIGITS_HELD) < line.len()
        || (line[0] == b'0' && 1 < line.len())
    {
        return None;
    }
    read_digits(line)
}

#[tactic(auto, using(crate::proofs::Reading::held, crate::proofs::Reading::finish, crate::proofs::Reading::other), unfolding(crate::specs::Line::is_digit))]
fn read_digits(line: &[u8]) -> Option<usize>
    requires { length line.now ≤ 19 }
    ensures { result ≡ read_on 0 line.now }
{
    let mut n: usize = 0;
    for byte in line {
        if !byte.is_ascii_digit() {
            return None;
        }
        n = n * 10 + (*byte - b'0') as usize;
    }
    Some(n)
}

// The place of the next newline from `from` on, or of the text's end.
#[tactic(auto, unfolding(crate::specs::Text::line_end, octets::specs::Bytes::index_of))]
pub fn line_end(text: &[u8], from: usize) -> usize
    ensures { result ≡ line_end text.now from }
{
    if text.len() < from {
        return from;
    }
    octets::find(text, from, b'\n')
}

// The start of the next line, or the text's end. A text's last line may lack its newline.
fn line_next(text: &[u8], end: usize) -> usize
    requires { end ≤ length text.now }
    ensures { result ≡ min (end + 1) (length text.now) }
{
    (end + 1).min(text.len())
}

// Puts the bytes into out at a place and answers the place after them; where they do not fit, it does nothing and answers `at`.
#[tactic(auto, unfolding(crate::specs::Put::end_at, crate::specs::Put::put_at, crate::specs::Put::fits, crate::specs::Put::put_over))]
pub fn put_bytes(given: &[u8], out: &mut [u8], at: usize) -> usize
    ensures value { result ≡ end_at at given.now out.old }
    ensures out_after { out.new ≡ put_at at given.now out.old }
{
    if out.len() < at || out.len() - at < given.len() {
        return at;
    }
    let end = at + given.len();
    out[at..end].copy_from_slice(given);
    end
}

// Puts n's decimal digits into out as put_bytes does.
#[tactic(auto, using(crate::proofs::Decimal::decimal_is))]
pub fn put_decimal(n: usize, out: &mut [u8], at: usize) -> usize
    ensures value { result ≡ end_at at (decimal_of n) out.old }
    ensures out_after { out.new ≡ put_at at (decimal_of n) out.old }
{
    let mut digits = [0u8; 20];
    let count = write_decimal(n as u64, &mut digits);
    put_bytes(&digits[..count], out, at)
}

// Puts n's decimal digits at the start of `out`, and tells how many there are: as few as hold n.
fn write_decimal(n: u64, out: &mut [u8; 20]) -> usize
    ensures room { result ≤ 20 }
    ensures fewest { IsDigitCount 10 1 n result }
    ensures digits { take result out.new ≡ last_digits 10 result n }
    ensures rest { drop result out.new ≡ drop result out.old }
{
    let k = digit_count(n);
    write_digits(n, k, out);
    k
}

// How many digits n takes.
fn digit_count(n: u64) -> usize
    ensures room { result ≤ 20 }
    ensures fewest { IsDigitCount 10 1 n result }
{
    n.max(1).ilog10() as usize + 1
}

// Puts the last k digits of n at the start of `out`.
fn write_digits(n: u64, k: usize, out: &mut [u8])
    requires { k ≤ length out.old }
    ensures digits { take k out.new ≡ last_digits 10 k n }
    ensures rest { drop k out.new ≡ drop k out.old }
{
    let mut rest = n;
    for i in (0..k).rev() {
        out[i] = digit_mark(rest % 10);
        rest /= 10;
    }
}

// The mark of a digit.
fn digit_mark(digit: u64) -> u8
    requires { digit < 10 }
    ensures { result ≡ hex_digit_ascii digit }
{
    b'0' + digit as u8
}

// Puts the header of the sizes program into out as put_bytes does.
#[tactic(auto, unfolding(crate::specs::Text::header, crate::specs::Row::row_of, crate::specs::Row::end_of))]
pub fn put_header(out: &mut [u8]) -> usize
    ensures value { result ≡ end_at 0 header out.old }
    ensures out_after { out.new ≡ put_at 0 header out.old }
{
    put_bytes(
        b"size\tblocks\tlongs\tlong\tshorts\tshort\tfiller\n",
        out,
        0,
    )
}

// Puts a row of numbers into out at a place and answers the place after it; where it might not fit, as there are not 21 bytes
// for each number, it does nothing and answers `at`.
#[tactic(auto, unfolding(crate::specs::Numbers::end_numbers, crate::specs::Numbers::put_numbers, crate::specs::Numbers::has_room))]
pub fn put_number_row(numbers: &[usize], out: &mut [u8], at: usize) -> usize
    ensures value { result ≡ end_numbers at numbers.now out.old }
    ensures out_after { out.new ≡ put_numbers at numbers.now out.old }
{
    if out.len() < at || (out.len() - at) / NUMBER_ROOM < numbers.len() {
        return at;
    }
    put_numbers(numbers, out, at)
}

// A row of numbers.
fn put_numbers(numbers: &[usize], out: &mut [u8], at: usize) -> usize
    requires { at + 21 * length numbers.now ≤ length out.old }
    ensures value { result ≡ at + length (row_of (map decimal_of numbers.now)) }
    ensures out_after { out.new ≡ put_over at (row_of (map decimal_of numbers.now)) out.old }
{
    let mut end = at;
    for (i, n) in numbers.iter().enumerate() {
        let mark = put_decimal(*n, out, end);
        out[mark] = field_end(i + 1 < numbers.len());
        end = mark + 1;
    }
    end
}

fn field_end(more: bool) -> u8
    ensures { result ≡ cond more tab newline }
{
    if more { b'\t' } else { b'\n' }
}

// Ends the row of a refusal, after a first field that ends at `at`.
fn put_refusal(refusal: Refusal, out: &mut [u8], at: usize) -> usize
    requires { at + 30 ≤ length out.old }
    ensures value { result ≡ at + length (tab ∷ row_of (refused ∷ decimal_of (number_of refusal) ∷ [])) }
    ensures out_after { out.new ≡ put_over at (tab ∷ row_of (refused ∷ decimal_of (number_of refusal) ∷ [])) out.old }
{
    let number = put_bytes(b"\trefused\t", out, at);
    let end = put_decimal(usize::from(u8::from(refusal)), out, number);
    put_bytes(b"\n", out, end)
}

// The row of a number's answer.
fn put_answer(a: usize, answer: Result<Sizes, Refusal>, out: &mut [u8], at: usize) -> usize
    requires { at + row_room ≤ length out.old }
    ensures value { result ≡ at + length (row_of (answer_fields a answer)) }
    ensures out_after { out.new ≡ put_over at (row_of (answer_fields a answer)) out.old }
{
    match answer {
        Ok(s) => {
            let numbers = [a, s.blocks, s.longs, s.long, s.shorts, s.short, s.filler];
            put_numbers(&numbers, out, at)
        }
        Err(refusal) => {
            let end = put_decimal(a, out, at);
            put_refusal(refusal, out, end)
        }
    }
}

// The row of a line of the sizes program.
fn put_row(line: &[u8], out: &mut [u8], at: usize) -> usize
    requires { at + row_room ≤ length out.old }
    ensures value { result ≡ at + length (sizes_row line.now) }
    ensures out_after { out.new ≡ put_over at (sizes_row line.now) out.old }
{
    match read_number(line, MOST_DIGITS) {
        Some(a) => put_answer(a, segmentation::sizes_for(a), out, at),
        None => {
            let end = put_bytes(b"-", out, at);
            put_refusal(Refusal::Unreadable, out, end)
        }
    }
}

// Writes the rows of the lines from `from` on to the start of out, as many as surely fit. A caller writes them out and goes on at `next`.
pub fn sizes_rows(text: &[u8], from: usize, out: &mut [u8]) -> Progress
    ensures value { result ≡ progress_of text.now from (length out.old) }
    ensures out_after { out.new ≡ rows_over text.now from out.old }
{
    // kept: a turn goes on at the next line's place, not one further, and that place is part of the answer, so that no iterator over lines is plainer.
    let mut next = from;
    let mut written = 0;
    while next < text.len() {
        if out.len() - written < ROW_ROOM {
            break;
        }
        let end = line_end(text, next);
        written = put_row(&text[next..end], out, written);
        next = line_next(text, end);
    }
    Progress { next, written }
}
