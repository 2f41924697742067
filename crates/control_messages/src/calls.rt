// The two calls: a control message, and the way back.
ghost use Rattle.std.specs.Prelude.{◌≡◌, ◌+◌, ◌≤◌, length, take};
ghost use Rattle.refusals.specs.Refusals.{number_in};
ghost use Rattle.laws.specs.Bits.{AreBits};
ghost use Rattle.control_messages.specs.Attachment.{attached};
ghost use Rattle.control_messages.specs.Message.{message};
ghost use Rattle.control_messages.specs.Calls.{control_number, control_output, whose_number, whose_answer};
ghost use Rattle.control_messages.specs.Working.{Sized, with_lead};

use crate::attachment::{crc_attachment, number_of, with_lead};
use crate::coding::channel_coding;
use crate::matching::rate_matching;
use refusals::Refusal;

// Writes the control message of `payload` for `terminal` over the first `e` bytes of `out`. A refusal writes nothing.
pub fn build(payload: &[u8], terminal: u16, e: usize, out: &mut [u8]) -> Result<(), Refusal>
    ensures number { number_in result ≡ control_number payload.now e (length out.old) }
    ensures output { out.new ≡ control_output payload.now terminal e out.old }
{
    accept_payload(payload, e, out.len())?;
    write_message(payload, terminal, &mut out[..e]);
    Ok(())
}

// The refusals of building in their order.
#[tactic(auto, unfolding(crate::specs::Calls::control_number, crate::specs::Calls::control_rules, crate::specs::Calls::bad_payload, crate::specs::Calls::bad_length, refusals::specs::Refusals::first_of))]
fn accept_payload(payload: &[u8], e: usize, lent: usize) -> Result<(), Refusal>
    ensures { number_in result ≡ control_number payload.now e lent }
{
    if payload.is_empty() || 64 < payload.len() {
        return Err(Refusal::BadPayload);
    }
    if e == 0 || 4096 < e {
        return Err(Refusal::BadAllocation);
    }
    if lent < e {
        return Err(Refusal::TooShort);
    }
    if codeword::bad_bits(payload) {
        return Err(Refusal::BadBit);
    }
    Ok(())
}

// The message over the whole of `out`.
fn write_message(payload: &[u8], terminal: u16, out: &mut [u8])
    requires sized { Sized (length payload.now + 16) }
    requires are_bits { AreBits payload.now }
    ensures { out.new ≡ message payload.now terminal (length out.old) }
{
    let d = payload.len() + 16;
    let mut bits = [0u8; 80];
    let mut led = [0u8; 86];
    led_bits(payload, terminal, &mut bits[..d], &mut led);
    let mut coded = [0u8; 80];
    channel_coding(&led, &mut coded);
    rate_matching(&coded, d, out);
}

// Payload and mixed check in `bits`, and in `led` once more behind the last six of them.
fn led_bits(payload: &[u8], terminal: u16, bits: &mut [u8], led: &mut [u8])
    requires { (length bits.old ≡ length payload.now + 16) × (length payload.now + 22 ≤ length led.old) }
    ensures { take (length payload.now + 22) led.new ≡ with_lead (attached payload.now terminal) }
{
    crc_attachment(payload, terminal, bits);
    with_lead(bits, led);
}

// Whose the run of payload and check bits is.
pub fn whose(run: &[u8]) -> Result<u16, Refusal>
    ensures { result ≡ whose_answer run.now }
{
    accept_run(run)?;
    let end = run.len() - 16;
    let own = check_bits::crc16(0, &run[..end]);
    let carried = number_of(&run[end..]);
    Ok((own ^ carried) as u16)
}

// The refusals of the way back in their order.
#[tactic(auto, unfolding(crate::specs::Calls::whose_number, crate::specs::Calls::whose_rules, crate::specs::Calls::bad_run, refusals::specs::Refusals::first_of))]
fn accept_run(run: &[u8]) -> Result<(), Refusal>
    ensures { number_in result ≡ whose_number run.now }
{
    if run.len() < 17 || 80 < run.len() {
        return Err(Refusal::BadPayload);
    }
    if codeword::bad_bits(run) {
        return Err(Refusal::BadBit);
    }
    Ok(())
}
