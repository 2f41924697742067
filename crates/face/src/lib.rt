// The face to C: what include/zemrukste.h declares beside the slots, thin over the proved libraries.
#![tactic(auto)]

mod control;

ghost use Rattle.std.specs.Prelude.{◌++◌, ◌≡◌, length};
ghost use Rattle.refusals.specs.Refusals.{number_in};
ghost use Rattle.codeword.specs.Shares.{grant};
ghost use Rattle.codeword.specs.Build.{build_number, build_output};
ghost use Rattle.reports.specs.Calls.{report_build_number, report_build_output, part_number, part_output};
ghost use Rattle.packing.specs.Change.{pack_number, pack_output, unpack_number, unpack_output};
ghost use Rattle.codeword.specs.Downlink.{build_down_number, build_down_output};
ghost use Rattle.face.specs.Face.{sizes_number, sizes_bytes};

use codeword::{Grant, Receiver};
pub use control::{zemrukste_control_build, zemrukste_control_whose};
use refusals::Refusal;
use reports::Layout;

// The number that C is told: 0, or that of the refusal.
pub(crate) fn told(answer: Result<(), Refusal>) -> u32
    ensures { result ≡ number_in answer }
{
    u32::from(refusals::number(answer))
}

// Build: 0, or the number of the refusal, which writes nothing.
#[unsafe(no_mangle)]
pub extern "C" fn zemrukste_build(
    block: &[u8],
    q: usize,
    n: usize,
    version: usize,
    g: usize,
    out: &mut [u8],
) -> u32
    ensures number { result ≡ build_number block.now (grant q n version g) (length out.old) }
    ensures output { out.new ≡ build_output block.now (grant q n version g) out.old }
{
    let grant = Grant {
        modulation: q,
        layers: n,
        version,
        bits: g,
    };
    told(build_calls::build(block, grant, out))
}

// Build of a block that lies in two slices, the header's bits before the payload's.
#[unsafe(no_mangle)]
pub extern "C" fn zemrukste_build_two(
    header: &[u8],
    payload: &[u8],
    q: usize,
    n: usize,
    version: usize,
    g: usize,
    out: &mut [u8],
) -> u32
    ensures number { result ≡ build_number (header.now ++ payload.now) (grant q n version g) (length out.old) }
    ensures output { out.new ≡ build_output (header.now ++ payload.now) (grant q n version g) out.old }
{
    let grant = Grant {
        modulation: q,
        layers: n,
        version,
        bits: g,
    };
    told(build_calls::build_two(header, payload, grant, out))
}

// Build for a downlink: the same, for a receiver with a limited soft buffer.
#[unsafe(no_mangle)]
pub extern "C" fn zemrukste_build_down(
    block: &[u8],
    release: usize,
    mimo: usize,
    processes: usize,
    soft: usize,
    layers: usize,
    q: usize,
    n: usize,
    version: usize,
    g: usize,
    out: &mut [u8],
) -> u32
    ensures number { result ≡ build_down_number block.now release mimo processes soft layers (grant q n version g) (length out.old) }
    ensures output { out.new ≡ build_down_output block.now release mimo processes soft layers (grant q n version g) out.old }
{
    let grant = Grant {
        modulation: q,
        layers: n,
        version,
        bits: g,
    };
    let receiver = Receiver {
        release,
        mimo,
        processes,
        soft,
        layers,
    };
    told(build_calls::build_down(block, receiver, grant, out))
}

// Sizes: the six numbers as bytes over the front of `out`, or the number of the refusal, which writes nothing.
#[unsafe(no_mangle)]
pub extern "C" fn zemrukste_sizes(a: usize, out: &mut [u8]) -> u32
    ensures number { result ≡ sizes_number a (length out.old) }
    ensures output { out.new ≡ sizes_bytes a out.old }
{
    told(put_sizes(a, out))
}

// The six numbers over the front of `out`.
fn put_sizes(a: usize, out: &mut [u8]) -> Result<(), Refusal>
    ensures number { number_in result ≡ sizes_number a (length out.old) }
    ensures output { out.new ≡ sizes_bytes a out.old }
{
    let s = segmentation::segments_for(a);
    if s.blocks == 0 {
        return Err(Refusal::BadLength);
    }
    if out.len() < 24 {
        return Err(Refusal::TooShort);
    }
    let six = [s.blocks, s.longs, s.long, s.shorts, s.short, s.filler];
    state_bytes::put_numbers(&six, &mut out[..24]);
    Ok(())
}

// Build with a report: 0, or the number of the refusal, which writes nothing.
#[unsafe(no_mangle)]
pub extern "C" fn zemrukste_report_build(
    report: &[u8],
    control: usize,
    block: &[u8],
    q: usize,
    n: usize,
    version: usize,
    g: usize,
    out: &mut [u8],
) -> u32
    ensures number { result ≡ report_build_number report.now control block.now (grant q n version g) (length out.old) }
    ensures output { out.new ≡ report_build_output report.now control block.now (grant q n version g) out.old }
{
    let grant = Grant {
        modulation: q,
        layers: n,
        version,
        bits: g,
    };
    told(reports::build(report, control, block, grant, out))
}

// The report of a received run: 0, or the number of the refusal, which writes nothing.
#[unsafe(no_mangle)]
pub extern "C" fn zemrukste_report_part(
    a: usize,
    q: usize,
    n: usize,
    o: usize,
    control: usize,
    received: &[u8],
    out: &mut [u8],
) -> u32
    ensures number { result ≡ part_number a q n o control received.now (length out.old) }
    ensures output { out.new ≡ part_output a q n o control received.now out.old }
{
    let layout = Layout {
        block: a,
        modulation: q,
        layers: n,
        report: o,
        control,
    };
    told(reports::part(layout, received, out))
}

// The packed form of one room of m code blocks: 0, or the number of the refusal, which writes nothing.
#[unsafe(no_mangle)]
pub extern "C" fn zemrukste_pack(m: usize, from: &[u8], to: &mut [u8]) -> u32
    ensures number { result ≡ pack_number m (length from.now) (length to.old) }
    ensures output { to.new ≡ pack_output m from.now to.old }
{
    told(packing::pack_room(m, from, to))
}

// The room of m code blocks back from its packed form: 0, or the number of the refusal, which writes nothing.
#[unsafe(no_mangle)]
pub extern "C" fn zemrukste_unpack(m: usize, from: &[u8], to: &mut [u8]) -> u32
    ensures number { result ≡ unpack_number m (length from.now) (length to.old) }
    ensures output { to.new ≡ unpack_output m from.now to.old }
{
    told(packing::unpack_room(m, from, to))
}
