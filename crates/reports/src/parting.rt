// The way back: the report that is nearest to the control bits of a received run, and the data behind them.
ghost use Rattle.std.specs.Prelude.{◌≡◌, IfOk, length};
ghost use Rattle.report_code.specs.Words.{message_bits};
ghost use Rattle.report_code.specs.Nearest.{nearest_message};
ghost use Rattle.refusals.specs.Refusals.{first_of, number_in};
ghost use Rattle.reports.specs.Refusals.{part_rules};
ghost use Rattle.reports.specs.Calls.{control_part, part_number, part_output, data_part};

use crate::Layout;
use crate::refused::{accept_shape, bad_data};
use refusals::Refusal;

// Writes the bits of the report over the front of `out`. A refusal writes nothing.
pub fn part(layout: Layout, received: &[u8], out: &mut [u8]) -> Result<(), Refusal>
    ensures number { number_in result ≡ part_number layout.block layout.modulation layout.layers layout.report layout.control received.now (length out.old) }
    ensures output { out.new ≡ part_output layout.block layout.modulation layout.layers layout.report layout.control received.now out.old }
{
    let message = read_run(layout, received, out.len())?;
    let o = layout.report;
    put_message(message, &mut out[..o]);
    Ok(())
}

// The data of the run: what begins at N·control, or nothing where the run is refused.
pub fn data_part(layout: Layout, received: &[u8]) -> &[u8]
    ensures { result.now ≡ data_part layout.block layout.modulation layout.layers layout.report layout.control received.now }
{
    match read_run(layout, received, layout.report) {
        Ok(_) => {
            let ahead = layout.layers * layout.control;
            &received[ahead..]
        }
        Err(_) => {
            let end = received.len();
            &received[end..]
        }
    }
}

// The refusals in their order, and the nearest message where none applies.
fn read_run(layout: Layout, received: &[u8], lent: usize) -> Result<u32, Refusal>
    ensures number { number_in result ≡ part_number layout.block layout.modulation layout.layers layout.report layout.control received.now lent }
    ensures message { IfOk result (λ message. message ≡ (nearest_message layout.report (control_part layout.layers layout.control received.now)).message) }
{
    accept_run(layout, received, lent)?;
    let ahead = layout.layers * layout.control;
    let found = report_code::nearest(layout.report, &received[..ahead]);
    if found.tied {
        return Err(Refusal::Tied);
    }
    Ok(found.message)
}

// The refusals that need no message, in their order.
#[tactic(auto, using(crate::proofs::Shape::ordered), unfolding(crate::specs::Refusals::part_rules, crate::specs::Refusals::shape_rules, refusals::specs::Refusals::first_of))]
fn accept_run(layout: Layout, received: &[u8], lent: usize) -> Result<(), Refusal>
    ensures { number_in result ≡ first_of (part_rules layout.block layout.modulation layout.layers layout.report layout.control received.now lent) }
{
    accept_shape(layout)?;
    let ahead = layout.layers * layout.control;
    let g = received.len().saturating_sub(ahead);
    if bad_data(layout, g) {
        return Err(Refusal::BadAllocation);
    }
    if lent < layout.report {
        return Err(Refusal::TooShort);
    }
    if codeword::bad_bits(received) {
        return Err(Refusal::BadBit);
    }
    Ok(())
}

// The bits of a message, the lowest first, over the whole of `out`.
fn put_message(message: u32, out: &mut [u8])
    ensures { out.new ≡ message_bits (length out.old) message }
{
    let mut rest = message;
    for bit in out.iter_mut() {
        *bit = (rest % 2) as u8;
        rest /= 2;
    }
}
