// A block that is sent: what an accepted Build has, and its code blocks one after the other.
ghost use Rattle.std.specs.Prelude.{◌≡◌, ◌++◌, ◌+◌, ◌≤◌, ◌<◌, length};
ghost use Rattle.laws.specs.Bits.{bits_of};
ghost use Rattle.segmentation.specs.Segmentation.{blocks, size_of};
ghost use Rattle.segmentation.specs.Sizes.{segments_of};
ghost use Rattle.codeword.specs.Codeword.{sent_bits, codeword_in};
ghost use Rattle.codeword.specs.inner.Accepted.{Accepted};
ghost use Rattle.build_calls.specs.inner.Sending.{Roomy};

use codeword::Grant;
use segmentation::Segments;

// A block whose Build is accepted: its bits are those of `header` and then those of `payload`, either of which may be empty, and each code block has
// a share `soft` of the soft buffer.
#[derive(Clone, Copy)]
pub(crate) struct Block<'a> {
    pub(crate) header: &'a [u8],
    pub(crate) payload: &'a [u8],
    pub(crate) soft: usize,
    pub(crate) grant: Grant,
    pub(crate) segments: Segments,
    ghost accepted: { Accepted soft (header.now ++ payload.now) grant },
    ghost segmented: { segments ≡ segments_of (length (header.now ++ payload.now) + 24) },
}

impl Block<'_> {
    // The codeword over the whole of `out`. All of an array is cleared when it is made, so the arrays are made once, of a length that goes by K+.
    pub(crate) fn write(&self, out: &mut [u8])
        requires { length out.old ≡ self.now.grant.bits }
        ensures { out.new ≡ codeword_in self.now.soft (self.now.header.now ++ self.now.payload.now) self.now.grant }
    {
        if self.segments.long <= 128 {
            self.write_with::<132>(out);
        } else if self.segments.long <= 1024 {
            self.write_with::<1028>(out);
        } else {
            self.write_with::<6148>(out);
        }
    }

    // The same with three arrays of D places, K+ + 4 or more: each code block is written straight into its own stretch of the codeword.
    fn write_with<const D: usize>(&self, out: &mut [u8])
        requires whole { length out.old ≡ self.now.grant.bits }
        requires room { (self.now.segments.long + 4 ≤ D) × (D ≤ 6148) }
        ensures { out.new ≡ codeword_in self.now.soft (self.now.header.now ++ self.now.payload.now) self.now.grant }
    {
        let mut d0 = [0u8; D];
        let mut d1 = [0u8; D];
        let mut d2 = [0u8; D];
        let (s, grant) = (self.segments, self.grant);
        let remainder = check_bits::crc24a_two(self.header, self.payload);
        let mut at = 0;
        for r in 0..s.blocks {
            let end = at
                + codeword::share_of(s.blocks, grant.modulation, grant.layers, grant.bits, r);
            let d = segmentation::block::size_of(s, r) + 4;
            let stretch = &mut out[at..end];
            self.send(
                remainder,
                r,
                &mut d0[..d],
                &mut d1[..d],
                &mut d2[..d],
                stretch,
            );
            at = end;
        }
    }

    // Code block r, turbo coded and rate matched, over the whole of `stretch`, in K + 4 places for each of the three streams. The code block's bits are put
    // where stream 0 has them.
    fn send(
        &self,
        remainder: u32,
        r: usize,
        d0: &mut [u8],
        d1: &mut [u8],
        d2: &mut [u8],
        stretch: &mut [u8],
    )
        requires below { r < blocks (length (self.now.header.now ++ self.now.payload.now) + 24) }
        requires roomy { Roomy (size_of (length (self.now.header.now ++ self.now.payload.now) + 24) r) (length d0.old) (length d1.old) (length d2.old) }
        ensures { stretch.new ≡ sent_bits self.now.soft ((self.now.header.now ++ self.now.payload.now) ++ bits_of 24 remainder) self.now.grant.version r (length stretch.old) }
    {
        let ncb = rate_matching::cut_at(self.soft, d0.len());
        let k = d0.len() - 4;
        segmentation::block::code_block(self.header, self.payload, remainder, r, &mut d0[..k]);
        let row = segmentation::block::row_of(self.segments, r);
        let filler = segmentation::block::filler_of(self.segments, r);
        turbo::encode(row, filler, d0, d1, d2);
        bit_selection::rate_match(d0, d1, d2, filler, ncb, self.grant.version, stretch);
    }
}
