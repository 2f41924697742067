// The lines of a log as they come in from standard input: where the next one stands, what is kept of an unfinished one, what a read adds to it.
// kept: one text that is read into piece by piece, with a line's places beside it: a slice of it could not be lent while it is read into.
#![tactic(auto)]

ghost use Rattle.std.specs.Prelude.{◌≡◌, ◌≤◌, ◌<◌, length};
ghost use Rattle.log_input.specs.Line.{Stands, unread_line, nothing_left, goes_on, none_left, line_in, following, settled, text_settled, line_after, text_after, last_line, text_ended, line_read, text_read, outside, line_now, text_now};

// A line of the text, from `from` up to `to`, where the text is read up to `end`: unfinished where `to` is `end`. `over` once the input is: then
// nothing is left where `end` is 0.
// kept: an Option would be no plainer, since an input that is over may still have its last line, and each turn takes a line and gives one, whichever it is.
#[derive(Clone, Copy)]
pub struct Line {
    pub from: usize,
    pub to: usize,
    pub end: usize,
    pub over: bool,
}

// Before the first read: an unfinished line of no bytes.
pub fn unread() -> Line
    ensures { result ≡ unread_line }
{
    Line {
        from: 0,
        to: 0,
        end: 0,
        over: false,
    }
}

// Whether a line is unfinished and the input is not over: then a read goes behind it.
#[tactic(auto, unfolding(crate::specs::Line::goes_on))]
pub fn goes_on(line: Line) -> bool
    ensures { result ≡ goes_on line }
{
    line.end <= line.to && !line.over
}

// Whether no line is left.
#[tactic(auto, unfolding(crate::specs::Line::none_left))]
pub fn nothing_is_left(line: Line) -> bool
    ensures { result ≡ none_left line }
{
    line.over && line.end == 0
}

// The line after this one in what is read. One that is unfinished there is moved to the text's front, so that a read has room behind it. Of a line that
// ends past the text nothing is left.
pub fn line_after(line: Line, text: &mut [u8]) -> Line
    ensures value { result ≡ line_after line text.old }
    ensures text_after { text.new ≡ text_after line text.old }
    ensures stands { Stands result (length text.new) }
{
    if text.len() < line.end {
        return nothing_left();
    }
    let next = following(line, text);
    settle(next, text)
}

// No line is left.
fn nothing_left() -> Line
    ensures { result ≡ nothing_left }
{
    Line {
        from: 0,
        to: 0,
        end: 0,
        over: true,
    }
}

// The line behind this one, or this one, if it is unfinished.
#[tactic(auto, unfolding(crate::specs::Line::following))]
fn following(line: Line, text: &[u8]) -> Line
    requires { line.end ≤ length text.now }
    ensures { result ≡ following line text.now }
{
    if line.to < line.end {
        let from = line.to + 1;
        return line_in(text, from, from, line.end, line.over);
    }
    line
}

// The line from `from` on. In the bytes before `seen` it does not end: an unfinished line is not looked through again.
#[tactic(auto, unfolding(crate::specs::Line::line_in))]
fn line_in(text: &[u8], from: usize, seen: usize, end: usize, over: bool) -> Line
    requires { end ≤ length text.now }
    ensures { result ≡ line_in text.now from seen end over }
{
    let to = lines::line_end(&text[..end], seen);
    Line {
        from,
        to,
        end,
        over,
    }
}

// Keeps the line at the text's front, if it goes on. An unfinished one that does not is none.
#[tactic(auto, unfolding(crate::specs::Line::settled, crate::specs::Line::text_settled))]
fn settle(line: Line, text: &mut [u8]) -> Line
    ensures value { result ≡ settled line text.old }
    ensures text_after { text.new ≡ text_settled line text.old }
{
    if line.to < line.end {
        return line;
    }
    if line.over {
        return nothing_left();
    }
    let kept = log_text::keep(text, line.from, line.end);
    Line {
        from: 0,
        to: kept,
        end: kept,
        over: false,
    }
}

// The line after a read that brought so many bytes, none at the input's end: they stand behind it, if it goes on. Of a line that does not stand within the
// text nothing is left.
pub fn line_now(line: Line, count: usize, text: &mut [u8]) -> Line
    ensures value { result ≡ line_now line count text.old }
    ensures text_after { text.new ≡ text_now line count text.old }
    ensures stands { Stands result (length text.new) }
{
    if outside(line, text.len()) {
        return nothing_left();
    }
    if goes_on(line) {
        return line_read(line.end, count, text);
    }
    line
}

// Whether a line does not stand within a text of so many bytes.
#[tactic(auto, unfolding(crate::specs::Line::outside))]
fn outside(line: Line, size: usize) -> bool
    ensures { result ≡ outside line size }
{
    line.to < line.from || line.end < line.to || size < line.end
}

// The line of which so many bytes are kept at the text's front, after a read behind them that brought so many more, none at the input's end. Where
// there is no room behind them, or not so much, nothing is left.
fn line_read(kept: usize, count: usize, text: &mut [u8]) -> Line
    ensures value { result ≡ line_read kept count text.old }
    ensures text_after { text.new ≡ text_read kept count text.old }
    ensures stands { Stands result (length text.new) }
{
    if text.len() <= kept || text.len() - kept < count {
        return nothing_left();
    }
    if count == 0 {
        return last_line(text, kept);
    }
    line_in(text, 0, kept, kept + count, false)
}

// The last line of the input, of so many bytes, which no newline ended: it is ended here.
#[tactic(auto, unfolding(crate::specs::Line::last_line, crate::specs::Line::text_ended))]
fn last_line(text: &mut [u8], kept: usize) -> Line
    requires { kept < length text.old }
    ensures value { result ≡ last_line kept }
    ensures text_after { text.new ≡ text_ended kept text.old }
{
    if kept == 0 {
        return nothing_left();
    }
    text[kept] = b'\n';
    Line {
        from: 0,
        to: kept,
        end: kept + 1,
        over: true,
    }
}
