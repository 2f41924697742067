// The words of a line: runs of bytes parted by single blanks.
#![tactic(auto)]

ghost use Rattle.std.specs.Prelude.{◌≡◌, length};
ghost use Rattle.line_words.specs.Words.{words_of, word_at, is_run, bit_of};

// How many words a line has: one more than it has blanks.
pub fn word_count(line: &[u8]) -> usize
    ensures { result ≡ length (words_of line.now) }
{
    line.iter().filter(|b| **b == b' ').count() + 1
}

// Word i of a line, empty where the line has fewer words.
pub fn word(line: &[u8], i: usize) -> &[u8]
    ensures { result.now ≡ word_at line.now i }
{
    line.split(|b| *b == b' ').nth(i).unwrap_or(&[])
}

// Whether the bytes are a run of digits, and at least one.
pub fn is_run(bytes: &[u8]) -> bool
    ensures { result ≡ is_run bytes.now }
{
    !bytes.is_empty() && bytes.iter().all(u8::is_ascii_digit)
}

// The byte that a digit stands for.
#[tactic(auto, unfolding(crate::specs::Words::bit_of))]
pub fn bit_of(digit: u8) -> u8
    ensures { result ≡ bit_of digit }
{
    digit.saturating_sub(b'0')
}
