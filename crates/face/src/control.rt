// The face to C of downlink control messages.
ghost use Rattle.std.specs.Prelude.{◌≡◌, length};
ghost use Rattle.refusals.specs.Refusals.{number_in};
ghost use Rattle.control_messages.specs.Calls.{control_number, control_output, whose_answer, terminal_of};

// A control message: 0, or the number of the refusal, which writes nothing.
#[unsafe(no_mangle)]
pub extern "C" fn zemrukste_control_build(
    payload: &[u8],
    terminal: u16,
    e: usize,
    out: &mut [u8],
) -> u32
    ensures number { result ≡ control_number payload.now e (length out.old) }
    ensures output { out.new ≡ control_output payload.now terminal e out.old }
{
    crate::told(control_messages::build(payload, terminal, e, out))
}

// Whose a run of payload and check bits is: 0 with the terminal number in `terminal`, or the number of the refusal, which writes nothing.
#[unsafe(no_mangle)]
#[tactic(auto, unfolding(control_messages::specs::Calls::terminal_of))]
pub extern "C" fn zemrukste_control_whose(run: &[u8], terminal: &mut u16) -> u32
    ensures number { result ≡ number_in (whose_answer run.now) }
    ensures named { terminal.new ≡ terminal_of (whose_answer run.now) terminal.old }
{
    match control_messages::whose(run) {
        Ok(own) => {
            *terminal = own;
            0
        }
        Err(refusal) => u32::from(u8::from(refusal)),
    }
}
