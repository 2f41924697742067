// Build with a report.
ghost use Rattle.std.specs.Prelude.{◌≡◌, ◌≤◌, length};
ghost use Rattle.laws.specs.Bits.{AreBits};
ghost use Rattle.refusals.specs.Refusals.{number_in};
ghost use Rattle.report_code.specs.Words.{number_of};
ghost use Rattle.reports.specs.Calls.{report_build_number, report_build_output};

use crate::Layout;
use crate::refused::{accept_shape, bad_data};
use codeword::Grant;
use refusals::Refusal;

// Writes the control bits of `report`, `control` a layer, and behind them the codeword of `block`, over the front of `out`. A refusal writes nothing.
pub fn build(
    report: &[u8],
    control: usize,
    block: &[u8],
    grant: Grant,
    out: &mut [u8],
) -> Result<(), Refusal>
    ensures number { number_in result ≡ report_build_number report.now control block.now grant (length out.old) }
    ensures output { out.new ≡ report_build_output report.now control block.now grant out.old }
{
    accept_build(report, control, block, grant, out.len())?;
    let ahead = grant.layers * control;
    report_code::control_bits(number_of(report), &mut out[..ahead]);
    build_calls::build(block, grant, &mut out[ahead..])
}

// The refusals in their order.
#[tactic(auto, using(crate::proofs::Shape::ordered), unfolding(crate::specs::Calls::report_build_number, crate::specs::Refusals::build_rules, crate::specs::Refusals::shape_rules, codeword::specs::Build::bad_version, refusals::specs::Refusals::first_of))]
fn accept_build(
    report: &[u8],
    control: usize,
    block: &[u8],
    grant: Grant,
    lent: usize,
) -> Result<(), Refusal>
    ensures { number_in result ≡ report_build_number report.now control block.now grant lent }
{
    let layout = Layout {
        block: block.len(),
        modulation: grant.modulation,
        layers: grant.layers,
        report: report.len(),
        control,
    };
    accept_shape(layout)?;
    if bad_data(layout, grant.bits) {
        return Err(Refusal::BadAllocation);
    }
    if grant.version > 3 {
        return Err(Refusal::BadVersion);
    }
    if lent < grant.layers * control + grant.bits {
        return Err(Refusal::TooShort);
    }
    if codeword::bad_bits(report) || codeword::bad_bits(block) {
        return Err(Refusal::BadBit);
    }
    Ok(())
}

// The number of a report: o_0 is its lowest bit.
// kept: what `packed` of report_code does for 32 bits: a public function has no `requires`, and without one neither can promise the number.
fn number_of(report: &[u8]) -> u32
    requires { AreBits report.now × (length report.now ≤ 11) }
    ensures { result ≡ number_of report.now }
{
    let mut number: u32 = 0;
    for i in (0..report.len()).rev() {
        number = 2 * number + u32::from(report[i]);
    }
    number
}
