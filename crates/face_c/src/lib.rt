// What a C program links of the face: each export calls the function of its name in `face`, and its clauses are the same.
// kept: the same exports twice: C links a static library, and `face` is a library that crates above cite.
#![tactic(auto)]

mod control;

ghost use Rattle.std.specs.Prelude.{◌++◌, ◌≡◌, length};
ghost use Rattle.codeword.specs.Shares.{grant};
ghost use Rattle.codeword.specs.Build.{build_number, build_output};
ghost use Rattle.reports.specs.Calls.{report_build_number, report_build_output, part_number, part_output};
ghost use Rattle.packing.specs.Change.{pack_number, pack_output, unpack_number, unpack_output};
ghost use Rattle.codeword.specs.Downlink.{build_down_number, build_down_output};
ghost use Rattle.face.specs.Face.{sizes_number, sizes_bytes};

// Build: 0, or the number of the refusal, which writes nothing.
#[unsafe(no_mangle)]
pub extern "C" fn zemrukste_build(
    block: &[u8],
    q: usize,
    n: usize,
    version: usize,
    g: usize,
    out: &mut [u8],
) -> u32
    ensures number { result ≡ build_number block.now (grant q n version g) (length out.old) }
    ensures output { out.new ≡ build_output block.now (grant q n version g) out.old }
{
    face::zemrukste_build(block, q, n, version, g, out)
}

// Build of a block that lies in two slices, the header's bits before the payload's.
#[unsafe(no_mangle)]
pub extern "C" fn zemrukste_build_two(
    header: &[u8],
    payload: &[u8],
    q: usize,
    n: usize,
    version: usize,
    g: usize,
    out: &mut [u8],
) -> u32
    ensures number { result ≡ build_number (header.now ++ payload.now) (grant q n version g) (length out.old) }
    ensures output { out.new ≡ build_output (header.now ++ payload.now) (grant q n version g) out.old }
{
    face::zemrukste_build_two(header, payload, q, n, version, g, out)
}

// Build for a downlink: the same, for a receiver with a limited soft buffer.
#[unsafe(no_mangle)]
pub extern "C" fn zemrukste_build_down(
    block: &[u8],
    release: usize,
    mimo: usize,
    processes: usize,
    soft: usize,
    layers: usize,
    q: usize,
    n: usize,
    version: usize,
    g: usize,
    out: &mut [u8],
) -> u32
    ensures number { result ≡ build_down_number block.now release mimo processes soft layers (grant q n version g) (length out.old) }
    ensures output { out.new ≡ build_down_output block.now release mimo processes soft layers (grant q n version g) out.old }
{
    face::zemrukste_build_down(
        block, release, mimo, processes, soft, layers, q, n, version, g, out,
    )
}

// Sizes: the six numbers as bytes over the front of `out`, or the number of the refusal, which writes nothing.
#[unsafe(no_mangle)]
pub extern "C" fn zemrukste_sizes(a: usize, out: &mut [u8]) -> u32
    ensures number { result ≡ sizes_number a (length out.old) }
    ensures output { out.new ≡ sizes_bytes a out.old }
{
    face::zemrukste_sizes(a, out)
}

// Build with a report: 0, or the number of the refusal, which writes nothing.
#[unsafe(no_mangle)]
pub extern "C" fn zemrukste_report_build(
    report: &[u8],
    control: usize,
    block: &[u8],
    q: usize,
    n: usize,
    version: usize,
    g: usize,
    out: &mut [u8],
) -> u32
    ensures number { result ≡ report_build_number report.now control block.now (grant q n version g) (length out.old) }
    ensures output { out.new ≡ report_build_output report.now control block.now (grant q n version g) out.old }
{
    face::zemrukste_report_build(report, control, block, q, n, version, g, out)
}

// The report of a received run: 0, or the number of the refusal, which writes nothing.
#[unsafe(no_mangle)]
pub extern "C" fn zemrukste_report_part(
    a: usize,
    q: usize,
    n: usize,
    o: usize,
    control: usize,
    received: &[u8],
    out: &mut [u8],
) -> u32
    ensures number { result ≡ part_number a q n o control received.now (length out.old) }
    ensures output { out.new ≡ part_output a q n o control received.now out.old }
{
    face::zemrukste_report_part(a, q, n, o, control, received, out)
}

// The packed form of one room of m code blocks: 0, or the number of the refusal, which writes nothing.
#[unsafe(no_mangle)]
pub extern "C" fn zemrukste_pack(m: usize, from: &[u8], to: &mut [u8]) -> u32
    ensures number { result ≡ pack_number m (length from.now) (length to.old) }
    ensures output { to.new ≡ pack_output m from.now to.old }
{
    face::zemrukste_pack(m, from, to)
}

// The room of m code blocks back from its packed form: 0, or the number of the refusal, which writes nothing.
#[unsafe(no_mangle)]
pub extern "C" fn zemrukste_unpack(m: usize, from: &[u8], to: &mut [u8]) -> u32
    ensures number { result ≡ unpack_number m (length from.now) (length to.old) }
    ensures output { to.new ≡ unpack_output m from.now to.old }
{
    face::zemrukste_unpack(m, from, to)
}
