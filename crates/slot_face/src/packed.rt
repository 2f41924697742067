// The face to C of the slots on stores with four places a byte: the same calls, on the places that the store keeps.
ghost use Rattle.std.specs.Prelude.{◌≡◌, true, length};
ghost use Rattle.slots.specs.Answers.{number_of};
ghost use Rattle.slots.specs.Calls.{open_outcome, open_store, open_down_outcome, open_down_store, receive_outcome, receive_store, read_outcome, read_output, streams_outcome, streams_output};
ghost use Rattle.packing.specs.Store.{places_in, in_form};
ghost use Rattle.state_bytes.specs.StateBytes.{state_in, bytes_after, value_of};

use codeword::Receiver;

// Open.
#[unsafe(no_mangle)]
pub extern "C" fn zemrukste_open_packed(
    bytes: &mut [u8],
    slot: usize,
    terminal: u16,
    a: usize,
    store: &mut [u8],
) -> u32
    ensures number { result ≡ number_of (open_outcome (state_in bytes.old) (length (places_in true store.old)) slot terminal a).answer }
    ensures state { bytes.new
        ≡ bytes_after (open_outcome (state_in bytes.old) (length (places_in true store.old)) slot terminal a) slot bytes.old }
    ensures stored { store.new ≡ in_form true (open_store (state_in bytes.old) slot a (places_in true store.old)) }
{
    let state = state_bytes::state_in(bytes);
    let outcome = packing::open_packed(state, slot, terminal, a, store);
    state_bytes::finish(outcome, slot, bytes)
}

// Open for a downlink.
#[unsafe(no_mangle)]
pub extern "C" fn zemrukste_open_down_packed(
    bytes: &mut [u8],
    slot: usize,
    terminal: u16,
    a: usize,
    release: usize,
    mimo: usize,
    processes: usize,
    soft: usize,
    layers: usize,
    store: &mut [u8],
) -> u32
    ensures number { result
        ≡ number_of (open_down_outcome (state_in bytes.old) (length (places_in true store.old)) slot terminal a release mimo processes soft layers).answer }
    ensures state { bytes.new
        ≡ bytes_after (open_down_outcome (state_in bytes.old) (length (places_in true store.old)) slot terminal a release mimo processes soft layers) slot bytes.old }
    ensures stored { store.new
        ≡ in_form true (open_down_store (state_in bytes.old) slot a release mimo processes soft layers (places_in true store.old)) }
{
    let state = state_bytes::state_in(bytes);
    let receiver = Receiver {
        release,
        mimo,
        processes,
        soft,
        layers,
    };
    let outcome = packing::open_down_packed(state, slot, terminal, a, receiver, store);
    state_bytes::finish(outcome, slot, bytes)
}

// Receive.
#[unsafe(no_mangle)]
pub extern "C" fn zemrukste_receive_packed(
    bytes: &[u8],
    slot: usize,
    terminal: u16,
    q: usize,
    n: usize,
    version: usize,
    bits: &[u8],
    store: &mut [u8],
    count: &mut usize,
) -> u32
    ensures number { result
        ≡ number_of (receive_outcome (state_in bytes.now) slot terminal q n version bits.now (places_in true store.old)).answer }
    ensures stored { store.new
        ≡ in_form true (receive_store (state_in bytes.now) slot terminal q n version bits.now (places_in true store.old)) }
    ensures count { count.new
        ≡ value_of (receive_outcome (state_in bytes.now) slot terminal q n version bits.now (places_in true store.old)).answer count.old }
{
    let outcome = reception::receive_packed(
        state_bytes::state_in(bytes),
        slot,
        terminal,
        q,
        n,
        version,
        bits,
        store,
    );
    let answer = outcome.answer;
    state_bytes::tell(answer, count)
}

// Read.
#[unsafe(no_mangle)]
pub extern "C" fn zemrukste_read_packed(
    bytes: &[u8],
    slot: usize,
    terminal: u16,
    store: &[u8],
    out: &mut [u8],
    count: &mut usize,
) -> u32
    ensures number { result
        ≡ number_of (read_outcome (state_in bytes.now) (places_in true store.now) slot terminal (length out.old)).answer }
    ensures output { out.new ≡ read_output (state_in bytes.now) (places_in true store.now) slot terminal out.old }
    ensures count { count.new
        ≡ value_of (read_outcome (state_in bytes.now) (places_in true store.now) slot terminal (length out.old)).answer count.old }
{
    let outcome = reading::read_packed(state_bytes::state_in(bytes), slot, terminal, store, out);
    let answer = outcome.answer;
    state_bytes::tell(answer, count)
}

// Streams.
#[unsafe(no_mangle)]
pub extern "C" fn zemrukste_streams_packed(
    bytes: &[u8],
    slot: usize,
    terminal: u16,
    block: usize,
    store: &[u8],
    out: &mut [u8],
) -> u32
    ensures number { result
        ≡ number_of (streams_outcome (state_in bytes.now) (length (places_in true store.now)) slot terminal block (length out.old)).answer }
    ensures output { out.new
        ≡ streams_output (state_in bytes.now) (places_in true store.now) slot terminal block out.old }
{
    let outcome = streaming::streams_packed(
        state_bytes::state_in(bytes),
        slot,
        terminal,
        block,
        store,
        out,
    );
    let answer = outcome.answer;
    state_bytes::number(answer)
}
