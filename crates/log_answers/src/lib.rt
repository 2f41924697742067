// The answers to a log as it comes in: a turn takes what a read brought, answers the line that stands there and goes on to the next one.
// kept: the two stores and the output one by one: each is lent for itself, and what it holds afterwards is a clause of its own.
#![tactic(auto)]

ghost use Rattle.std.specs.Prelude.{◌≡◌, ◌≤◌, ◌<◌, length};
ghost use Rattle.log_input.specs.Line.{Stands};
ghost use Rattle.log_answers.specs.Turn.{first_log, step_answered, plain_answered, packed_answered, out_answered, log_turned, text_turned, plain_turned, packed_turned, out_turned, turns_left};

use log_input::Line;
use yard::Step;

// The step that the last line made, and the line to go on with.
#[derive(Clone, Copy)]
pub struct Log {
    pub step: Step,
    pub line: Line,
}

// Before the first read. Before the first `new` the state is that of a refused New, and the rooms are plain.
pub fn begun() -> Log
    ensures { result ≡ first_log }
{
    let outcome = slot_calls::new(0, 0);
    let state = outcome.state;
    Log {
        step: Step {
            state,
            four: false,
            written: 0,
        },
        line: log_input::unread(),
    }
}

// One turn, after a read that brought so many bytes: the answer to the line that is now in the text, at the start of out, and the line after it.
pub fn turn(
    log: Log,
    count: usize,
    text: &mut [u8],
    plain: &mut [u8],
    packed: &mut [u8],
    out: &mut [u8],
) -> Log
    ensures value { result ≡ log_turned log count text.old plain.old packed.old out.old }
    ensures text_after { text.new ≡ text_turned log count text.old }
    ensures plain_after { plain.new
        ≡ plain_turned log count text.old plain.old packed.old (length out.old) }
    ensures packed_after { packed.new
        ≡ packed_turned log count text.old plain.old packed.old (length out.old) }
    ensures out_after { out.new ≡ out_turned log count text.old plain.old packed.old out.old }
    ensures stands { Stands result.line (length text.new) }
    ensures written_in_bounds { result.step.written ≤ length out.new }
{
    let line = log_input::line_now(log.line, count, text);
    let step = answer_line(log.step, line, text, plain, packed, out);
    let next = log_input::line_after(line, text);
    Log { step, line: next }
}

// Makes the call or the change that a line of the text asks for. An unfinished line waits: the state and the form stay, and nothing is written.
fn answer_line(
    before: Step,
    line: Line,
    text: &[u8],
    plain: &mut [u8],
    packed: &mut [u8],
    out: &mut [u8],
) -> Step
    requires { Stands line (length text.now) }
    ensures value { result ≡ step_answered before line text.now plain.old packed.old out.old }
    ensures plain_after { plain.new
        ≡ plain_answered before line text.now plain.old packed.old (length out.old) }
    ensures packed_after { packed.new
        ≡ packed_answered before line text.now plain.old packed.old (length out.old) }
    ensures out_after { out.new ≡ out_answered before line text.now plain.old packed.old out.old }
    ensures written_in_bounds { result.written ≤ length out.new }
{
    let state = before.state;
    let four = before.four;
    let from = line.from;
    let to = line.to;
    if to == line.end {
        return Step {
            state,
            four,
            written: 0,
        };
    }
    yard::replay_line(state, four, &text[from..to], plain, packed, out)
}

// How many turns are left after one of so many: none where its answer could not be written or no line is left.
pub fn turns_left(turns: u64, going: bool, line: Line) -> u64
    ensures value { result ≡ turns_left turns going line }
    ensures upper_bound { 0 < turns → result < turns }
{
    if turns == 0 {
        return 0;
    }
    if log_input::nothing_is_left(line) {
        return 0;
    }
    if going { turns - 1 } else { 0 }
}
