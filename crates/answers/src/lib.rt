// The answers of a replayed log as rows of text: `ok` or `refused`, and what comes with it, parted by tabs.
// kept: an output with the place where to go on, as in lines.
#![tactic(auto)]

ghost use Rattle.std.specs.Prelude.{◌≡◌, ◌∷◌, [], ◌++◌, ◌+◌, ◌≤◌, leb, length};
ghost use Rattle.refusals.specs.Refusals.{number_of};
ghost use Rattle.slots.specs.Outcome.{answer_of};
ghost use Rattle.lines.specs.Numbers.{numbers_row};
ghost use Rattle.lines.specs.Put.{put_at, end_at};
ghost use Rattle.answers.specs.Rows.{accepted_row, digits_of, answer_row, refusal_row, run_row, runs_row};
ghost use Rattle.answers.specs.SizesRow.{sizes_row};
ghost use Rattle.answers.specs.WorstRow.{worst_row};

use planning::Worst;
use refusals::Refusal;
use segmentation::Sizes;
use slots::{Answer, Reason};

// The numbers of the refusals that bring one with them.
const LACKING: usize = 11;

const WRONG_BLOCK: usize = 16;

// The room of a word with its tab and of six numbers, each with its tab or newline: 8 + 6 * 21.
const TOLD_ROOM: usize = 134;

// Each of these puts its row at the start of out and answers the row's length; where the row does not fit, it does nothing and
// answers 0.

// The row of a slot call's answer that gives no bits.
#[tactic(auto, unfolding(crate::specs::Rows::answer_row, crate::specs::Rows::accepted_row, crate::specs::Rows::refused_row, crate::specs::Rows::refusal_row, slots::specs::Answers::number_of, slots::specs::Answers::values_of, lines::specs::Row::row_of, lines::specs::Row::end_of))]
pub fn put_answer(answer: Answer, out: &mut [u8]) -> usize
    ensures value { result ≡ end_at 0 (answer_row (answer_of answer)) out.old }
    ensures out_after { out.new ≡ put_at 0 (answer_row (answer_of answer)) out.old }
{
    match answer {
        Ok(None) => lines::put_bytes(b"ok\n", out, 0),
        Ok(Some(lacking)) => put_told(b"ok\t", &[lacking], out),
        Err(Reason::Rule(refusal)) => put_refused(refusal, out),
        Err(Reason::Lacking(places)) => put_told(b"refused\t", &[LACKING, places], out),
        Err(Reason::WrongCodeBlock(block)) => put_told(b"refused\t", &[WRONG_BLOCK, block], out),
    }
}

// The row of an accepted call that gives a number.
#[tactic(auto, unfolding(crate::specs::Rows::accepted_row, lines::specs::Row::row_of, lines::specs::Row::end_of))]
pub fn put_number(number: usize, out: &mut [u8]) -> usize
    ensures value { result ≡ end_at 0 (accepted_row (number ∷ [])) out.old }
    ensures out_after { out.new ≡ put_at 0 (accepted_row (number ∷ [])) out.old }
{
    put_told(b"ok\t", &[number], out)
}

// The row of a refusal by its number alone.
#[tactic(auto, unfolding(crate::specs::Rows::refusal_row, crate::specs::Rows::refused_row, lines::specs::Row::row_of, lines::specs::Row::end_of))]
pub fn put_refusal(number: usize, out: &mut [u8]) -> usize
    ensures value { result ≡ end_at 0 (refusal_row number) out.old }
    ensures out_after { out.new ≡ put_at 0 (refusal_row number) out.old }
{
    put_told(b"refused\t", &[number], out)
}

// The row of a refusal.
pub fn put_refused(refusal: Refusal, out: &mut [u8]) -> usize
    ensures value { result ≡ end_at 0 (refusal_row (number_of refusal)) out.old }
    ensures out_after { out.new ≡ put_at 0 (refusal_row (number_of refusal)) out.old }
{
    put_refusal(usize::from(u8::from(refusal)), out)
}

// The row of what Sizes answers.
#[tactic(auto, unfolding(crate::specs::SizesRow::sizes_row, crate::specs::Rows::accepted_row, crate::specs::Rows::refusal_row, segmentation::specs::Sizes::number_of, segmentation::specs::Sizes::values_of, lines::specs::Row::row_of, lines::specs::Row::end_of))]
pub fn put_sizes(answer: Result<Sizes, Refusal>, out: &mut [u8]) -> usize
    ensures value { result ≡ end_at 0 (sizes_row answer) out.old }
    ensures out_after { out.new ≡ put_at 0 (sizes_row answer) out.old }
{
    match answer {
        Ok(s) => {
            let numbers = [s.blocks, s.longs, s.long, s.shorts, s.short, s.filler];
            put_told(b"ok\t", &numbers, out)
        }
        Err(refusal) => put_refused(refusal, out),
    }
}

// The row of the least G of three and of one.
#[tactic(auto, unfolding(crate::specs::WorstRow::worst_row, crate::specs::Rows::accepted_row, planning::specs::Worst::values_of, lines::specs::Row::row_of, lines::specs::Row::end_of))]
pub fn put_worst(answer: Result<Worst, Refusal>, out: &mut [u8]) -> usize
    ensures value { result ≡ end_at 0 (worst_row answer) out.old }
    ensures out_after { out.new ≡ put_at 0 (worst_row answer) out.old }
{
    match answer {
        Ok(worst) => put_told(b"ok\t", &[worst.three, worst.one], out),
        Err(refusal) => put_refused(refusal, out),
    }
}

// The row of bits: what Read or Build gave.
pub fn put_run(bits: &[u8], out: &mut [u8]) -> usize
    ensures value { result ≡ end_at 0 (run_row bits.now) out.old }
    ensures out_after { out.new ≡ put_at 0 (run_row bits.now) out.old }
{
    if out.len() < 4 || out.len() - 4 < bits.len() {
        return 0;
    }
    let from = lines::put_bytes(b"ok\t", out, 0);
    let end = put_digits(bits, out, from);
    lines::put_bytes(b"\n", out, end)
}

// The row of the three streams.
pub fn put_runs(first: &[u8], second: &[u8], third: &[u8], out: &mut [u8]) -> usize
    ensures value { result ≡ end_at 0 (runs_row first.now second.now third.now) out.old }
    ensures out_after { out.new
        ≡ put_at 0 (runs_row first.now second.now third.now) out.old }
{
    if !is_room(out.len(), first.len(), second.len(), third.len()) {
        return 0;
    }
    let first_at = lines::put_bytes(b"ok\t", out, 0);
    let first_end = put_digits(first, out, first_at);
    let second_at = lines::put_bytes(b"\t", out, first_end);
    let second_end = put_digits(second, out, second_at);
    let third_at = lines::put_bytes(b"\t", out, second_end);
    let third_end = put_digits(third, out, third_at);
    lines::put_bytes(b"\n", out, third_end)
}

// The row of a word, which comes with its tab, and of numbers. It is assembled where it surely fits and put in one go.
fn put_told(word: &[u8], numbers: &[usize], out: &mut [u8]) -> usize
    requires word_len_bound { length word.now ≤ 8 }
    requires numbers_len_bound { length numbers.now ≤ 6 }
    ensures value { result ≡ end_at 0 (word.now ++ numbers_row numbers.now) out.old }
    ensures out_after { out.new ≡ put_at 0 (word.now ++ numbers_row numbers.now) out.old }
{
    let mut row = [0u8; TOLD_ROOM];
    let from = lines::put_bytes(word, &mut row, 0);
    let end = lines::put_number_row(numbers, &mut row, from);
    lines::put_bytes(&row[..end], out, 0)
}

// Puts the digits of the bits into out as lines::put_bytes does.
fn put_digits(bits: &[u8], out: &mut [u8], at: usize) -> usize
    ensures value { result ≡ end_at at (digits_of bits.now) out.old }
    ensures out_after { out.new ≡ put_at at (digits_of bits.now) out.old }
{
    if out.len() < at || out.len() - at < bits.len() {
        return at;
    }
    for (i, bit) in bits.iter().enumerate() {
        out[at + i] = b'0' + *bit % 10;
    }
    at + bits.len()
}

// Whether a row of three runs of these lengths fits, with `ok`, its tabs and its newline.
fn is_room(room: usize, a: usize, b: usize, c: usize) -> bool
    ensures { result ≡ leb (6 + a + b + c) room }
{
    6 <= room && a <= room - 6 && b <= room - 6 - a && c <= room - 6 - a - b
}
