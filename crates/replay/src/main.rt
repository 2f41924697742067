// Replays a log of the yard: each line of standard input is one call of 01 or a change of form, and its answer one line of standard output.
#![tactic(auto)]

ghost use Rattle.std.specs.Prelude.{◌≤◌, length};

use log_input::Line;
use std::io;
use std::io::Read;

fn main(rt: HostRuntime) {
    // for the longest line that is read, and what comes behind it
    let mut text = [0u8; 262144];
    // for rooms with S·M at most 3, in either form; a larger S·M meets number 5
    let mut plain = [0u8; 55584];
    let mut packed = [0u8; 13896];
    // for the longest answer: a codeword of 172,800 bits with `ok`, a tab and a newline
    let mut out = [0u8; 172804];
    // So that a replay cut short does not look whole, it says so.
    if replay_log(&rt, &mut text, &mut plain, &mut packed, &mut out).is_err() {
        let _ = eprintln!(rt; "replay: the output can't be written; answers are missing");
    }
}

// Answers the log's lines, until no line is left or the output can't be written. A proved loop has to end, and nothing says that an input does: so it
// has as many turns as no run uses up.
fn replay_log(
    rt: &HostRuntime,
    text: &mut [u8],
    plain: &mut [u8],
    packed: &mut [u8],
    out: &mut [u8],
) -> io::Result<()> {
    let mut log = log_answers::begun();
    for turn in 0..u64::MAX {
        let count = read_on(rt, log.line, turn == 0, text);
        log = log_answers::turn(log, count, text, plain, packed, out);
        let written = log.step.written;
        let row = rt.write_all(&out[..written]);
        if log_answers::turns_left(u64::MAX - turn, row.is_ok(), log.line) == 0 {
            return row;
        }
    }
    Ok(())
}

// One read behind a line that goes on: how many bytes came, 0 at the end and where the input can't be read. The first of a log tells of its line ends.
fn read_on(rt: &HostRuntime, line: Line, first: bool, text: &mut [u8]) -> usize
    requires { line.end ≤ length text.old }
{
    if !log_input::goes_on(line) {
        return 0;
    }
    let kept = line.end;
    let count = rt.stdin().read(&mut text[kept..]).unwrap_or(0);
    if first {
        tell_line_ends(rt, &text[..count]);
    }
    count
}

// A log whose first line ends in a carriage return is told of, once, at the first read: its lines are no calls.
fn tell_line_ends(rt: &HostRuntime, text: &[u8]) {
    if log_text::ends_in_return(text) {
        let _ = eprintln!(rt;
            "replay: the log's lines end in carriage returns; they are refused with 15"
        );
    }
}
