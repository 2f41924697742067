// The call Build of 01, for a block in one slice or in two, and for a downlink.
ghost use Rattle.std.specs.Prelude.{◌≡◌, ◌++◌, length};
ghost use Rattle.refusals.specs.Refusals.{number_in};
ghost use Rattle.segmentation.specs.Sizes.{segments_for};
ghost use Rattle.codeword.specs.Downlink.{build_down_number, build_down_output};
ghost use Rattle.codeword.specs.Build.{build_number, build_output};
ghost use Rattle.build_calls.specs.inner.Sending.{number_with};

use crate::block::Block;
use codeword::{Grant, Receiver, share_for};
use refusals::Refusal;
use segmentation::Segments;

// What an uplink's code block has: the places of the largest circle.
const WHOLE_SHARE: usize = 18528;

// Writes the codeword of `block` over the first `g` bytes of `out`. A refusal writes nothing. It is the build of two slices whose second is empty.
pub fn build(block: &[u8], grant: Grant, out: &mut [u8]) -> Result<(), Refusal>
    ensures number { number_in result ≡ build_number block.now grant (length out.old) }
    ensures output { out.new ≡ build_output block.now grant out.old }
{
    build_two(block, &block[..0], grant, out)
}

// The same for a block that lies in two slices: its bits are those of `header` and then those of `payload`, either of which may be empty.
pub fn build_two(header: &[u8], payload: &[u8], grant: Grant, out: &mut [u8]) -> Result<(), Refusal>
    ensures number { number_in result ≡ build_number (header.now ++ payload.now) grant (length out.old) }
    ensures output { out.new ≡ build_output (header.now ++ payload.now) grant out.old }
{
    let segments = segmentation::segments_for_both(header.len(), payload.len());
    accept(header, payload, segments, grant, out.len())?;
    let block = Block {
        header,
        payload,
        soft: WHOLE_SHARE,
        grant,
        segments,
    };
    let g = grant.bits;
    block.write(&mut out[..g]);
    Ok(())
}

// The same for a receiver whose soft buffer is limited: the circles are cut.
pub fn build_down(
    block: &[u8],
    receiver: Receiver,
    grant: Grant,
    out: &mut [u8],
) -> Result<(), Refusal>
    ensures number { number_in result ≡ build_down_number block.now receiver.release receiver.mimo receiver.processes receiver.soft receiver.layers grant (length out.old) }
    ensures output { out.new ≡ build_down_output block.now receiver.release receiver.mimo receiver.processes receiver.soft receiver.layers grant out.old }
{
    let segments = segmentation::segments_for(block.len());
    let soft = share_for(segments.blocks, receiver);
    accept_down(block, segments, soft, grant, out.len())?;
    let block = Block {
        header: block,
        payload: &block[..0],
        soft,
        grant,
        segments,
    };
    let g = grant.bits;
    block.write(&mut out[..g]);
    Ok(())
}

// Its refusals in 02's order: after the size and the share, those of Build. The longest code block has the most rows.
#[tactic(auto, using(crate::proofs::DownNumbers::accepting_down), unfolding(crate::specs::inner::Sending::number_with))]
fn accept_down(
    block: &[u8],
    s: Segments,
    share: usize,
    grant: Grant,
    lent: usize,
) -> Result<(), Refusal>
    requires { s ≡ segments_for (length block.now) }
    ensures { number_in result ≡ number_with block.now share grant lent }
{
    if s.blocks == 0 {
        return Err(Refusal::BadLength);
    }
    if share < 32 * ((s.long + 35) / 32) {
        return Err(Refusal::BadReceiver);
    }
    accept(block, &block[..0], s, grant, lent)
}

// Build's refusals in 01's order.
#[tactic(auto, using(crate::proofs::Numbers::accepting), unfolding(codeword::specs::Build::build_number, codeword::specs::Build::build_rules, refusals::specs::Refusals::first_of, codeword::specs::Build::bad_allocation, codeword::specs::Build::bad_version))]
fn accept(
    header: &[u8],
    payload: &[u8],
    s: Segments,
    grant: Grant,
    lent: usize,
) -> Result<(), Refusal>
    requires { s ≡ segments_for (length (header.now ++ payload.now)) }
    ensures { number_in result ≡ build_number (header.now ++ payload.now) grant lent }
{
    if s.blocks == 0 {
        return Err(Refusal::BadLength);
    }
    if codeword::bad_allocation(s.blocks, grant.modulation, grant.layers, grant.bits) {
        return Err(Refusal::BadAllocation);
    }
    if grant.version > 3 {
        return Err(Refusal::BadVersion);
    }
    if lent < grant.bits {
        return Err(Refusal::TooShort);
    }
    if codeword::bad_bits(header) || codeword::bad_bits(payload) {
        return Err(Refusal::BadBit);
    }
    Ok(())
}
