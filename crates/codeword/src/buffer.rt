// The soft buffer of a downlink, clause 5.1.4.1.2: each code block's share of it.
ghost use Rattle.std.specs.Prelude.{◌≡◌};
ghost use Rattle.rate_matching.specs.SoftBuffer.{divisor_in};
ghost use Rattle.codeword.specs.Downlink.{bad_receiver, share_for};

use crate::Receiver;

// The most processes that share the buffer.
const M_LIMIT: usize = 8;

#[tactic(auto, unfolding(crate::specs::Downlink::bad_receiver))]
fn bad_receiver(receiver: Receiver) -> bool
    ensures { result ≡ bad_receiver receiver.release receiver.mimo receiver.processes }
{
    let Receiver {
        release,
        mimo,
        processes,
        ..
    } = receiver;
    !(release == 8 || release == 11) || !(mimo == 1 || mimo == 2) || processes == 0
}

// K_C where the release has it, else 1.
#[tactic(auto, unfolding(rate_matching::specs::SoftBuffer::divisor_in, rate_matching::specs::SoftBuffer::k_c))]
fn divisor_in(release: usize, soft: usize, layers: usize) -> usize
    ensures { result ≡ divisor_in release soft layers }
{
    if release != 11 {
        return 1;
    }
    if soft == 35982720 {
        return 5;
    }
    if soft == 3654144 && layers <= 2 { 2 } else { 1 }
}

// The share of each of C code blocks; 0 where there is none, or the receiver is refused.
#[tactic(auto, using(crate::proofs::SoftShares::receiver, crate::proofs::SoftShares::divisor_few), unfolding(crate::specs::Downlink::share_for, rate_matching::specs::SoftBuffer::soft_share, rate_matching::specs::SoftBuffer::n_ir, rate_matching::specs::SoftBuffer::m_limit))]
pub fn share_for(blocks: usize, receiver: Receiver) -> usize
    ensures { result ≡ share_for blocks receiver.release receiver.mimo receiver.processes receiver.soft receiver.layers }
{
    if blocks == 0 {
        return 0;
    }
    if bad_receiver(receiver) {
        return 0;
    }
    let divisor = divisor_in(receiver.release, receiver.soft, receiver.layers);
    let shared = divisor * receiver.mimo * receiver.processes.min(M_LIMIT);
    receiver.soft / shared / blocks
}
