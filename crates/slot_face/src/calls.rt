// The face to C of the slots: New, Open, Receive, Read, Streams and Close, on a state that the caller keeps as bytes.
ghost use Rattle.std.specs.Prelude.{◌≡◌, length};
ghost use Rattle.slots.specs.Answers.{number_of};
ghost use Rattle.slots.specs.Calls.{open_outcome, open_store, open_down_outcome, open_down_store, receive_outcome, receive_store, read_outcome, read_output, streams_outcome, streams_output, close_outcome};
ghost use Rattle.state_bytes.specs.StateBytes.{state_in, bytes_after, new_number, new_bytes, value_of};

use codeword::Receiver;

// New: 0, 13 with the state of S = 0, or 5, which writes nothing.
#[unsafe(no_mangle)]
pub extern "C" fn zemrukste_new(bytes: &mut [u8], s: usize, m: usize) -> u32
    ensures number { result ≡ new_number s m (length bytes.old) }
    ensures state { bytes.new ≡ new_bytes s m bytes.old }
{
    state_bytes::new(s, m, bytes)
}

// Open: 0 with the room cleared and the head in the state, or the number of the refusal, which writes nothing.
#[unsafe(no_mangle)]
pub extern "C" fn zemrukste_open(
    bytes: &mut [u8],
    slot: usize,
    terminal: u16,
    a: usize,
    store: &mut [u8],
) -> u32
    ensures number { result ≡ number_of (open_outcome (state_in bytes.old) (length store.old) slot terminal a).answer }
    ensures state { bytes.new
        ≡ bytes_after (open_outcome (state_in bytes.old) (length store.old) slot terminal a) slot bytes.old }
    ensures stored { store.new ≡ open_store (state_in bytes.old) slot a store.old }
{
    let state = state_bytes::state_in(bytes);
    let outcome = slot_calls::open(state, slot, terminal, a, store);
    state_bytes::finish(outcome, slot, bytes)
}

// Open for a downlink: the same, and each code block has its share of the receiver's soft buffer.
#[unsafe(no_mangle)]
pub extern "C" fn zemrukste_open_down(
    bytes: &mut [u8],
    slot: usize,
    terminal: u16,
    a: usize,
    release: usize,
    mimo: usize,
    processes: usize,
    soft: usize,
    layers: usize,
    store: &mut [u8],
) -> u32
    ensures number { result
        ≡ number_of (open_down_outcome (state_in bytes.old) (length store.old) slot terminal a release mimo processes soft layers).answer }
    ensures state { bytes.new
        ≡ bytes_after (open_down_outcome (state_in bytes.old) (length store.old) slot terminal a release mimo processes soft layers) slot bytes.old }
    ensures stored { store.new
        ≡ open_down_store (state_in bytes.old) slot a release mimo processes soft layers store.old }
{
    let state = state_bytes::state_in(bytes);
    let receiver = Receiver {
        release,
        mimo,
        processes,
        soft,
        layers,
    };
    let outcome = slot_calls::open_down(state, slot, terminal, a, receiver, store);
    state_bytes::finish(outcome, slot, bytes)
}

// Receive: 0 with the count of data places that lack a bit in `count`, or the number of the refusal, which writes nothing.
#[unsafe(no_mangle)]
pub extern "C" fn zemrukste_receive(
    bytes: &[u8],
    slot: usize,
    terminal: u16,
    q: usize,
    n: usize,
    version: usize,
    bits: &[u8],
    store: &mut [u8],
    count: &mut usize,
) -> u32
    ensures number { result
        ≡ number_of (receive_outcome (state_in bytes.now) slot terminal q n version bits.now store.old).answer }
    ensures stored { store.new
        ≡ receive_store (state_in bytes.now) slot terminal q n version bits.now store.old }
    ensures count { count.new
        ≡ value_of (receive_outcome (state_in bytes.now) slot terminal q n version bits.now store.old).answer count.old }
{
    let outcome = reception::receive(
        state_bytes::state_in(bytes),
        slot,
        terminal,
        q,
        n,
        version,
        bits,
        store,
    );
    let answer = outcome.answer;
    state_bytes::tell(answer, count)
}

// Read: 0 with the block in `out`, 11 with the count or 16 with the code block in `count`, or the number of another refusal.
#[unsafe(no_mangle)]
pub extern "C" fn zemrukste_read(
    bytes: &[u8],
    slot: usize,
    terminal: u16,
    store: &[u8],
    out: &mut [u8],
    count: &mut usize,
) -> u32
    ensures number { result
        ≡ number_of (read_outcome (state_in bytes.now) store.now slot terminal (length out.old)).answer }
    ensures output { out.new ≡ read_output (state_in bytes.now) store.now slot terminal out.old }
    ensures count { count.new
        ≡ value_of (read_outcome (state_in bytes.now) store.now slot terminal (length out.old)).answer count.old }
{
    let outcome = reading::read(state_bytes::state_in(bytes), slot, terminal, store, out);
    let answer = outcome.answer;
    state_bytes::tell(answer, count)
}

// Streams: 0 with the three streams of a code block in `out`, or the number of the refusal, which writes nothing.
#[unsafe(no_mangle)]
pub extern "C" fn zemrukste_streams(
    bytes: &[u8],
    slot: usize,
    terminal: u16,
    block: usize,
    store: &[u8],
    out: &mut [u8],
) -> u32
    ensures number { result
        ≡ number_of (streams_outcome (state_in bytes.now) (length store.now) slot terminal block (length out.old)).answer }
    ensures output { out.new
        ≡ streams_output (state_in bytes.now) store.now slot terminal block out.old }
{
    let outcome = streaming::streams(
        state_bytes::state_in(bytes),
        slot,
        terminal,
        block,
        store,
        out,
    );
    let answer = outcome.answer;
    state_bytes::number(answer)
}

// Close: 0 with the head closed in the state, or the number of the refusal, which writes nothing.
#[unsafe(no_mangle)]
pub extern "C" fn zemrukste_close(bytes: &mut [u8], slot: usize, terminal: u16) -> u32
    ensures number { result ≡ number_of (close_outcome (state_in bytes.old) slot terminal).answer }
    ensures state { bytes.new
        ≡ bytes_after (close_outcome (state_in bytes.old) slot terminal) slot bytes.old }
{
    let outcome = slot_calls::close(state_bytes::state_in(bytes), slot, terminal);
    state_bytes::finish(outcome, slot, bytes)
}
