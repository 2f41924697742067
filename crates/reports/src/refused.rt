// What Build with a report and the way back look at first.
ghost use Rattle.std.specs.Prelude.{◌≡◌, false, ◌+◌, ◌<◌};
ghost use Rattle.refusals.specs.Refusals.{first_of, number_in};
ghost use Rattle.segmentation.specs.Segmentation.{blocks};
ghost use Rattle.segmentation.specs.Sizes.{bad_size};
ghost use Rattle.codeword.specs.Build.{bad_symbol, bad_length};
ghost use Rattle.reports.specs.Refusals.{bad_report, bad_control, shape_rules};

use crate::Layout;
use refusals::Refusal;

// Number 17.
#[tactic(auto, unfolding(crate::specs::Refusals::bad_report))]
fn bad_report(o: usize) -> bool
    ensures { result ≡ bad_report o }
{
    o == 0 || o > 11
}

// Number 18, for a Q that is not 0.
#[tactic(auto, unfolding(crate::specs::Refusals::bad_control))]
fn bad_control(q: usize, control: usize) -> bool
    requires { 0 < q }
    ensures { result ≡ bad_control q control }
{
    control == 0 || control > 4096 || control % q != 0
}

// The first of 1, 3 (Q, N), 17 and 18 that applies.
#[tactic(auto, using(crate::proofs::Shape::shaping), unfolding(crate::specs::Refusals::shape_rules, refusals::specs::Refusals::first_of))]
pub(crate) fn accept_shape(layout: Layout) -> Result<(), Refusal>
    ensures { number_in result ≡ first_of (shape_rules layout.block layout.modulation layout.layers layout.report layout.control) }
{
    let s = segmentation::segments_for(layout.block);
    if s.blocks == 0 {
        return Err(Refusal::BadLength);
    }
    if codeword::bad_symbol(layout.modulation, layout.layers) {
        return Err(Refusal::BadAllocation);
    }
    if bad_report(layout.report) {
        return Err(Refusal::BadReport);
    }
    if bad_control(layout.modulation, layout.control) {
        return Err(Refusal::BadControl);
    }
    Ok(())
}

// Number 3 for G, of a block whose size is in range, and Q and N as 01 has them.
pub(crate) fn bad_data(layout: Layout, g: usize) -> bool
    requires { (bad_size layout.block ≡ false) × (bad_symbol layout.modulation layout.layers ≡ false) }
    ensures { result ≡ bad_length (blocks (layout.block + 24)) layout.modulation layout.layers g }
{
    let s = segmentation::segments_for(layout.block);
    codeword::bad_allocation(s.blocks, layout.modulation, layout.layers, g)
}
