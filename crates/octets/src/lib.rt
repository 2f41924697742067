// Runs of bytes: copied over the start of others, and searched for a byte.
#![tactic(auto)]

ghost use Rattle.std.specs.Prelude.{◌≡◌, ◌+◌, drop};
ghost use Rattle.octets.specs.Bytes.{copied_over, index_of};

// Puts the bytes over the start of `to`. Where they are more than `to` has, it does nothing.
#[tactic(auto, unfolding(crate::specs::Bytes::copied_over))]
pub fn copy(from: &[u8], to: &mut [u8])
    ensures { to.new ≡ copied_over from.now to.old }
{
    if to.len() < from.len() {
        return;
    }
    to[..from.len()].copy_from_slice(from);
}

// The place of the first such byte from `from` on, or of the text's end; `from` where that lies behind the text.
#[tactic(auto, using(crate::proofs::Found::index_here, crate::proofs::Found::index_past, crate::proofs::Found::index_none))]
pub fn find(text: &[u8], from: usize, byte: u8) -> usize
    ensures { result ≡ from + index_of byte (drop from text.now) }
{
    for at in from..text.len() {
        if text[at] == byte {
            return at;
        }
    }
    from.max(text.len())
}
