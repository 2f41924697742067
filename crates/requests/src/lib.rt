// A line of the yard's log, read into the call that it stands for.
#![tactic(auto)]

mod verbs;

ghost use Rattle.std.specs.Prelude.{◌≡◌, cond, ◌≤◌, leb, length};
ghost use Rattle.requests.specs.Numbers.{digits_at, read_word, says_number, said_from, number_at, field, fields};
ghost use Rattle.requests.specs.Request.{is_silent, right_words, right_terminal, right_bits, well_formed, bare, asked_for, request_of, bits_from, bits_over};

// What a line asks for.
#[derive(Clone, Copy)]
pub enum Verb {
    New,
    Open,
    OpenDown,
    Close,
    Receive,
    Read,
    Streams,
    Build,
    BuildDown,
    Sizes,
    Worst,
    Pack,
    Unpack,
    // an empty line or a comment
    Nothing,
    // a line that can't be read
    Unreadable,
}

// What follows a verb: so many numbers, the second of them a terminal or not, one of them soft bits (its word) or none, and then
// BITS or not.
// kept: these flags have no value beside them; and that there are at most nine numbers stands in contracts, since a ghost field would add a proof to each form of specs/.
#[derive(Clone, Copy)]
pub struct Form {
    pub numbers: usize,
    pub terminal: bool,
    pub soft: Option<usize>,
    pub bits: bool,
}

// A line as a call: the verb, its numbers (0 for those that its form has not), and where its BITS start.
#[derive(Clone, Copy)]
pub struct Request {
    pub verb: Verb,
    pub numbers: [usize; 9],
    pub bits: usize,
}

// The bytes that a line may have, its newline not counted.
const LONGEST: usize = 200000;

// The digits that a number may have.
const MOST_DIGITS: usize = 6;

// The digits that soft bits may have.
const SOFT_DIGITS: usize = 8;

const MOST_TERMINAL: usize = 65535;

// Reads a line, without its newline.
#[tactic(auto, unfolding(crate::specs::Request::request_of))]
pub fn read_request(line: &[u8]) -> Request
    ensures { result ≡ request_of line.now }
{
    if is_silent(line) {
        return bare(Verb::Nothing);
    }
    if LONGEST < line.len() {
        return bare(Verb::Unreadable);
    }
    asked_for(line, verbs::verb_of(line_words::word(line, 0)))
}

// The call that a line with this verb asks for.
#[tactic(auto, using(line_words::proofs::WordLaws::word_short), unfolding(crate::specs::Request::asked_for, crate::specs::Request::asked_by))]
fn asked_for(line: &[u8], verb: Verb) -> Request
    ensures { result ≡ asked_for line.now verb }
{
    match verbs::form_of(verb) {
        Some(form) if well_formed(line, form) => {
            let last = line_words::word(line, form.numbers + 1);
            Request {
                verb,
                numbers: fields(line, form),
                bits: line.len() - last.len(),
            }
        }
        _ => bare(Verb::Unreadable),
    }
}

// An empty line and a comment ask for nothing.
#[tactic(auto, unfolding(crate::specs::Request::is_silent))]
fn is_silent(line: &[u8]) -> bool
    ensures { result ≡ is_silent line.now }
{
    line.is_empty() || line[0] == b'#'
}

// A request without numbers or bits.
#[tactic(auto, unfolding(crate::specs::Request::bare))]
fn bare(verb: Verb) -> Request
    ensures { result ≡ bare verb }
{
    Request {
        verb,
        numbers: [0; 9],
        bits: 0,
    }
}

// Whether a line has the words that its verb asks for.
#[tactic(auto, unfolding(crate::specs::Request::well_formed))]
fn well_formed(line: &[u8], form: Form) -> bool
    requires { form.numbers ≤ 9 }
    ensures { result ≡ well_formed line.now form }
{
    right_words(line, form) && right_terminal(line, form) && right_bits(line, form)
}

#[tactic(auto, unfolding(crate::specs::Request::right_words))]
fn right_words(line: &[u8], form: Form) -> bool
    ensures { result ≡ right_words line.now form }
{
    let others = 1 + usize::from(form.bits);
    line_words::word_count(line).checked_sub(others) == Some(form.numbers)
        && says_numbers(line, form)
}

#[tactic(auto, unfolding(crate::specs::Request::right_terminal))]
fn right_terminal(line: &[u8], form: Form) -> bool
    ensures { result ≡ right_terminal line.now form }
{
    !form.terminal || number_at(line, form, 2) <= MOST_TERMINAL
}

#[tactic(auto, unfolding(crate::specs::Request::right_bits))]
fn right_bits(line: &[u8], form: Form) -> bool
    requires { form.numbers ≤ 9 }
    ensures { result ≡ right_bits line.now form }
{
    !form.bits || line_words::is_run(line_words::word(line, form.numbers + 1))
}

// Whether the words behind the verb say its numbers.
fn says_numbers(line: &[u8], form: Form) -> bool
    ensures { result ≡ said_from line.now form 1 form.numbers }
{
    (0..form.numbers).all(|i| says_number(line, form, i + 1))
}

// How many digits word i may have.
#[tactic(auto, unfolding(crate::specs::Numbers::digits_at))]
fn digits_at(form: Form, i: usize) -> usize
    ensures { result ≡ digits_at form i }
{
    if form.soft == Some(i) {
        SOFT_DIGITS
    } else {
        MOST_DIGITS
    }
}

// What word i says where it is read as a number.
#[tactic(auto, unfolding(crate::specs::Numbers::read_word))]
fn read_word(line: &[u8], form: Form, i: usize) -> Option<usize>
    ensures { result ≡ read_word line.now form i }
{
    lines::read_number(line_words::word(line, i), digits_at(form, i))
}

// Whether word i says a number.
#[tactic(auto, unfolding(crate::specs::Numbers::says_number))]
fn says_number(line: &[u8], form: Form, i: usize) -> bool
    ensures { result ≡ says_number line.now form i }
{
    read_word(line, form, i).is_some()
}

// The number that word i says, 0 where it says none.
#[tactic(auto, unfolding(crate::specs::Numbers::number_at))]
fn number_at(line: &[u8], form: Form, i: usize) -> usize
    ensures { result ≡ number_at line.now form i }
{
    read_word(line, form, i).unwrap_or(0)
}

// Number i of a line, 0 where its form has fewer: words behind its numbers are not looked at, since BITS may be long.
#[tactic(auto, unfolding(crate::specs::Numbers::field))]
fn field(line: &[u8], form: Form, i: usize) -> usize
    ensures { result ≡ field line.now form i }
{
    if form.numbers < i {
        0
    } else {
        number_at(line, form, i)
    }
}

// The numbers of a line.
#[tactic(auto, unfolding(crate::specs::Numbers::fields))]
fn fields(line: &[u8], form: Form) -> [usize; 9]
    ensures { result ≡ fields line.now form }
{
    std::array::from_fn(|i| field(line, form, i + 1))
}

// Writes the bits that the line's digits from place `from` on stand for to the start of out, and answers how many they are; where
// they do not fit, it does nothing and answers 0.
pub fn read_bits(line: &[u8], from: usize, out: &mut [u8]) -> usize
    ensures value { result ≡ cond (leb (length (bits_from line.now from)) (length out.old)) (length (bits_from line.now from)) 0 }
    ensures out_after { out.new ≡ bits_over line.now from out.old }
{
    let digits = &line[from.min(line.len())..];
    if out.len() < digits.len() {
        return 0;
    }
    for (i, digit) in digits.iter().enumerate() {
        out[i] = line_words::bit_of(*digit);
    }
    digits.len()
}
