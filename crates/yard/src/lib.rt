// A line of the yard's log made one call of 01, or a change of form, and its answer a row.
// kept: the two stores and the output one by one: each is lent for itself, and what it holds afterwards is a clause of its own.
#![tactic(auto)]

ghost use Rattle.std.specs.Prelude.{◌≡◌, length, replicate};
ghost use Rattle.lines.specs.Put.{put_at};
ghost use Rattle.requests.specs.Request.{request_of, longest_line};
ghost use Rattle.line_calls.specs.Call.{store_by};
ghost use Rattle.yard.specs.Step.{row_made, step_made, call_row, call_step, call_store, step_of, plain_after, packed_after, out_after, step_within, plain_within, packed_within, out_within};

use requests::Request;
use slots::State;

// The state and the form of the rooms to hand to the next line, and the length of the row that answers this one.
// kept: the form is a flag with no value of its own beside it, as in packing's functions and in the definitions.
#[derive(Clone, Copy)]
pub struct Step {
    pub state: State,
    pub four: bool,
    pub written: usize,
}

// No row is longer: `ok`, a tab, a codeword of 172,800 bits and a newline.
const LONGEST_ROW: usize = 172804;

// Makes the call that a line, without its newline, asks for, on the rooms in the plain store or, `four` places a byte, in the packed one, or
// changes their form; and puts the row of its answer at the start of out. Into an out that is shorter than the longest row no answer is sure to fit: then
// nothing is done.
pub fn replay_line(
    state: State,
    four: bool,
    line: &[u8],
    plain: &mut [u8],
    packed: &mut [u8],
    out: &mut [u8],
) -> Step
    ensures value { result ≡ step_within state four plain.old packed.old line.now out.old }
    ensures plain_after { plain.new
        ≡ plain_within state four plain.old packed.old line.now (length out.old) }
    ensures packed_after { packed.new
        ≡ packed_within state four plain.old packed.old line.now (length out.old) }
    ensures out_after { out.new ≡ out_within state four plain.old packed.old line.now out.old }
{
    if out.len() < LONGEST_ROW {
        return Step {
            state,
            four,
            written: 0,
        };
    }
    line_on(state, four, line, plain, packed, out)
}

// The same, with the row where it fits.
fn line_on(
    state: State,
    four: bool,
    line: &[u8],
    plain: &mut [u8],
    packed: &mut [u8],
    out: &mut [u8],
) -> Step
    ensures value { result ≡ step_of state four plain.old packed.old line.now out.old }
    ensures plain_after { plain.new ≡ plain_after state four plain.old packed.old line.now }
    ensures packed_after { packed.new ≡ packed_after state four plain.old packed.old line.now }
    ensures out_after { out.new ≡ out_after state four plain.old packed.old line.now out.old }
{
    let request = requests::read_request(line);
    match form_changes::change_of(request.verb) {
        Some(to) => {
            let changed = form_changes::change_line(state, four, to, plain, packed, out);
            Step {
                state,
                four: changed.four,
                written: changed.written,
            }
        }
        None => {
            if four {
                call_line(state, true, request, line, packed, out)
            } else {
                call_line(state, false, request, line, plain, out)
            }
        }
    }
}

// Makes a call on the store that has the rooms, in its form, with the line's BITS where it has them. A line's terminal has no more than 16 bits, and of
// the second number of another verb none is made.
fn call_line(
    state: State,
    four: bool,
    request: Request,
    line: &[u8],
    store: &mut [u8],
    out: &mut [u8],
) -> Step
    requires { request ≡ request_of line.now }
    ensures value { result ≡ call_step state four store.old line.now out.old }
    ensures store_after { store.new ≡ call_store state four store.old line.now }
    ensures out_after { out.new ≡ put_at 0 (call_row state four store.old line.now) out.old }
{
    let n = request.numbers;
    let terminal = (n[1] % 65536) as u16;
    let from = request.bits;
    if line.len() <= from {
        return call_with(state, four, request, terminal, &line[..0], store, out);
    }
    let mut given = bits_buffer();
    let count = requests::read_bits(line, from, &mut given);
    call_with(state, four, request, terminal, &given[..count], store, out)
}

// For the BITS of the longest line.
fn bits_buffer() -> [u8; 200000]
    ensures { result ≡ replicate longest_line 0 }
{
    [0; 200000]
}

// The call with this terminal and these bits, and the row that tells it.
fn call_with(
    state: State,
    four: bool,
    request: Request,
    terminal: u16,
    bits: &[u8],
    store: &mut [u8],
    out: &mut [u8],
) -> Step
    ensures value { result ≡ step_made request.verb request.numbers terminal bits.now state four store.old out.old }
    ensures store_after { store.new ≡ store_by request.verb request.numbers terminal bits.now state four store.old }
    ensures out_after { out.new ≡ put_at 0 (row_made request.verb request.numbers terminal bits.now state four store.old) out.old }
{
    let verb = request.verb;
    let n = request.numbers;
    let outcome = line_calls::make_call(verb, n, terminal, bits, state, four, store);
    let after = outcome.state;
    let written = line_rows::put_row(verb, n, terminal, bits, outcome, four, store, out);
    Step {
        state: after,
        four,
        written,
    }
}
