// The rows of the calls that give bits: Read, Streams and Build.
// kept: state, slot, terminal, size and store one by one, as the rules list a call's arguments and the definitions take them: a struct would be taken apart in each contract.
#![tactic(auto)]

ghost use Rattle.std.specs.Prelude.{◌≡◌, ◌+◌, ◌-◌, ◌*◌, ◌≤◌, length, take, drop};
ghost use Rattle.refusals.specs.Refusals.{number_in};
ghost use Rattle.codeword.specs.Shares.{grant};
ghost use Rattle.packing.specs.Store.{places_in};
ghost use Rattle.lines.specs.Put.{put_at, end_at};
ghost use Rattle.answers.specs.Rows.{runs_row};
ghost use Rattle.call_rows.specs.Rows.{at, read_row, streams_row, built_row, build_row, build_down_row};

use codeword::{Grant, Receiver};
use refusals::Refusal;
use slot_calls::states;
use slots::State;

// Room for the largest block.
const READ_ROOM: usize = 30576;

// Room for the three streams of the largest code block.
const STREAMS_ROOM: usize = 18444;

// Room for the longest codeword.
const BUILD_ROOM: usize = 172800;

// The row of Read.
pub fn put_read(
    state: State,
    four: bool,
    slot: usize,
    terminal: u16,
    store: &[u8],
    out: &mut [u8],
) -> usize
    ensures value { result ≡ end_at 0 (read_row state (places_in four store.now) slot terminal) out.old }
    ensures out_after { out.new ≡ put_at 0 (read_row state (places_in four store.now) slot terminal) out.old }
{
    let mut block = [0u8; READ_ROOM];
    let outcome = room_calls::read_in(state, four, slot, terminal, store, &mut block);
    let answer = outcome.answer;
    if slot_calls::is_done(answer) {
        let head = states::head_at(state, slot);
        let size = head.size;
        answers::put_run(&block[..size], out)
    } else {
        answers::put_answer(answer, out)
    }
}

// The row of Streams.
pub fn put_streams(
    state: State,
    four: bool,
    slot: usize,
    terminal: u16,
    block: usize,
    store: &[u8],
    out: &mut [u8],
) -> usize
    ensures value { result ≡ end_at 0 (streams_row state (places_in four store.now) slot terminal block) out.old }
    ensures out_after { out.new ≡ put_at 0 (streams_row state (places_in four store.now) slot terminal block) out.old }
{
    let mut runs = [0u8; STREAMS_ROOM];
    let outcome = room_calls::streams_in(state, four, slot, terminal, block, store, &mut runs);
    let answer = outcome.answer;
    if slot_calls::is_done(answer) {
        let head = states::head_at(state, slot);
        let s = segmentation::segments_for(head.size);
        put_three(&runs, segmentation::block::size_of(s, block) + 4, out)
    } else {
        answers::put_answer(answer, out)
    }
}

// The row of three runs of d bytes that stand one after another.
fn put_three(runs: &[u8], d: usize, out: &mut [u8]) -> usize
    requires { 3 * d ≤ length runs.now }
    ensures value { result ≡ end_at 0 (runs_row (take d runs.now) (take (d + d - d) (drop d runs.now)) (take (d + d + d - (d + d)) (drop (d + d) runs.now))) out.old }
    ensures out_after { out.new ≡ put_at 0 (runs_row (take d runs.now) (take (d + d - d) (drop d runs.now)) (take (d + d + d - (d + d)) (drop (d + d) runs.now))) out.old }
{
    let two = d + d;
    let three = two + d;
    answers::put_runs(&runs[..d], &runs[d..two], &runs[two..three], out)
}

// The row of Build.
pub fn put_codeword(block: &[u8], grant: Grant, out: &mut [u8]) -> usize
    ensures value { result ≡ end_at 0 (build_row block.now grant) out.old }
    ensures out_after { out.new ≡ put_at 0 (build_row block.now grant) out.old }
{
    let mut code = [0u8; BUILD_ROOM];
    let built = build_calls::build(block, grant, &mut code);
    put_built(built, &code, grant.bits, out)
}

// The row of Build for a downlink.
pub fn put_codeword_down(block: &[u8], n: [usize; 9], out: &mut [u8]) -> usize
    ensures value { result ≡ end_at 0 (build_down_row block.now (at n 0) (at n 1) (at n 2) (at n 3) (at n 4) (grant (at n 5) (at n 6) (at n 7) (at n 8))) out.old }
    ensures out_after { out.new ≡ put_at 0 (build_down_row block.now (at n 0) (at n 1) (at n 2) (at n 3) (at n 4) (grant (at n 5) (at n 6) (at n 7) (at n 8))) out.old }
{
    let mut code = [0u8; BUILD_ROOM];
    let [
        release,
        mimo,
        processes,
        soft,
        layers,
        modulation,
        streams,
        version,
        bits,
    ] = n;
    let receiver = Receiver {
        release,
        mimo,
        processes,
        soft,
        layers,
    };
    let grant = Grant {
        modulation,
        layers: streams,
        version,
        bits,
    };
    let built = build_calls::build_down(block, receiver, grant, &mut code);
    put_built(built, &code, bits, out)
}

// The row of what a Build gave: the codeword, or the refusal.
fn put_built(built: Result<(), Refusal>, code: &[u8], g: usize, out: &mut [u8]) -> usize
    requires { number_in built ≡ 0 → g ≤ length code.now }
    ensures value { result ≡ end_at 0 (built_row (number_in built) (take g code.now)) out.old }
    ensures out_after { out.new ≡ put_at 0 (built_row (number_in built) (take g code.now)) out.old }
{
    match built {
        Ok(()) => answers::put_run(&code[..g], out),
        Err(refusal) => answers::put_refused(refusal, out),
    }
}
