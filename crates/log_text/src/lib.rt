// The text of a log that is read in pieces: its unfinished line goes to the front, and the next read goes on behind it.
// kept: one text that is read into piece by piece, with the places of its unfinished line beside it: no slice of it could be read into behind its end.
#![tactic(auto)]

ghost use Rattle.std.specs.Prelude.{◌≡◌, ◌++◌, ◌-◌, ◌≤◌, min, length, take, drop};
ghost use Rattle.log_text.specs.Unfinished.{most_kept, unfinished, ends_in_return};

// So much of a line is kept as shows that it is too long to be read.
const MOST_KEPT: usize = 200001;

// Moves the unfinished line, which starts at `from`, of a text that is read up to `end`, to the text's front and tells how much of it is kept. What a
// line of more than 200,001 bytes loses here would not change its answer.
#[tactic(auto, using(crate::proofs::Kept::down, crate::proofs::Kept::stays))]
pub fn keep(text: &mut [u8], from: usize, end: usize) -> usize
    ensures value { result ≡ length (unfinished text.old from end) }
    ensures text_after { text.new ≡ unfinished text.old from end ++ drop (length (unfinished text.old from end)) text.old }
{
    let count = kept_count(text.len(), from, end);
    if 0 < from && 0 < count {
        text.copy_within(from..from + count, 0);
    }
    count
}

// How many bytes of the unfinished line are kept, of a text of so many.
fn kept_count(size: usize, from: usize, end: usize) -> usize
    ensures { result ≡ min (min (end - from) most_kept) (size - from) }
{
    end.saturating_sub(from)
        .min(MOST_KEPT)
        .min(size.saturating_sub(from))
}

// Whether the text's first line ends in a carriage return.
#[tactic(auto, using(lines::proofs::Lines::end_within), unfolding(crate::specs::Unfinished::ends_in_return))]
pub fn ends_in_return(text: &[u8]) -> bool
    ensures { result ≡ ends_in_return text.now }
{
    let end = lines::line_end(text, 0);
    0 < end && text[end - 1] == b'\r'
}
