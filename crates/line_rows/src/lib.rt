// The row that tells the call of a line of the yard's log, by its verb.
#![tactic(auto)]

ghost use Rattle.std.specs.Prelude.{◌≡◌};
ghost use Rattle.slots.specs.Outcome.{told};
ghost use Rattle.packing.specs.Store.{places_in};
ghost use Rattle.lines.specs.Put.{put_at, end_at};
ghost use Rattle.call_rows.specs.Rows.{share_row};
ghost use Rattle.line_rows.specs.Row.{row_by};

use codeword::Grant;
use refusals::Refusal;
use requests::Verb;
use slot_calls::states;
use slots::Outcome;

// Puts the row that tells a call at the start of out: what it answered or, of the state and the store after it, what was asked for.
#[tactic(auto, using(crate::proofs::Nothing::nothing), unfolding(crate::specs::Row::row_by))]
pub fn put_row(
    verb: Verb,
    n: [usize; 9],
    terminal: u16,
    bits: &[u8],
    outcome: Outcome,
    four: bool,
    store: &[u8],
    out: &mut [u8],
) -> usize
    ensures value { result ≡ end_at 0 (row_by verb n terminal bits.now (told outcome) (places_in four store.now)) out.old }
    ensures out_after { out.new ≡ put_at 0 (row_by verb n terminal bits.now (told outcome) (places_in four store.now)) out.old }
{
    let state = outcome.state;
    match verb {
        Verb::New | Verb::Open | Verb::Close | Verb::Receive => {
            answers::put_answer(outcome.answer, out)
        }
        Verb::OpenDown => put_share(outcome, n[0], out),
        Verb::Read => call_rows::put_read(state, four, n[0], terminal, store, out),
        Verb::Streams => call_rows::put_streams(state, four, n[0], terminal, n[2], store, out),
        Verb::Build => {
            let grant = Grant {
                modulation: n[0],
                layers: n[1],
                version: n[2],
                bits: n[3],
            };
            call_rows::put_codeword(bits, grant, out)
        }
        Verb::BuildDown => call_rows::put_codeword_down(bits, n, out),
        Verb::Sizes => answers::put_sizes(segmentation::sizes_for(n[0]), out),
        Verb::Worst => answers::put_worst(planning::worst_for(n[0], n[1], n[2]), out),
        Verb::Pack | Verb::Unpack | Verb::Nothing => 0,
        Verb::Unreadable => answers::put_refused(Refusal::Unreadable, out),
    }
}

// The row of an Open for a downlink: an accepted one tells the share that the slot's head now holds.
#[tactic(auto, unfolding(call_rows::specs::Rows::share_row, slots::specs::Calls::share_at_head))]
fn put_share(outcome: Outcome, slot: usize, out: &mut [u8]) -> usize
    ensures value { result ≡ end_at 0 (share_row (told outcome) slot) out.old }
    ensures out_after { out.new ≡ put_at 0 (share_row (told outcome) slot) out.old }
{
    if slot_calls::is_done(outcome.answer) {
        let head = states::head_at(outcome.state, slot);
        answers::put_number(head.share, out)
    } else {
        answers::put_answer(outcome.answer, out)
    }
}
