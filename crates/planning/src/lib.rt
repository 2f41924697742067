// How many repeats at worst: the least G of three transmissions, versions 0, 1 and 3, and of one alone, that surely bring a block.
#![tactic(auto)]

ghost use Rattle.std.specs.Prelude.{◌≡◌, ◌+◌, ◌≤◌};
ghost use Rattle.refusals.specs.Refusals.{number_in};
ghost use Rattle.segmentation.specs.Segmentation.{blocks};
ghost use Rattle.planning.specs.Least.{least_symbols};
ghost use Rattle.planning.specs.Worst.{worst_number, worst_answer, need_by, need_in, Planned};

use refusals::Refusal;

// The least G of each of three transmissions, and of one alone.
#[derive(Clone, Copy)]
pub struct Worst {
    pub three: usize,
    pub one: usize,
}

// The two for a block of `a` bits, `q` bits a symbol and `n` layers. Both are always within what Build takes.
pub fn worst_for(a: usize, q: usize, n: usize) -> Result<Worst, Refusal>
    ensures { result ≡ worst_answer a q n }
{
    accept(a, q, n)?;
    let step = n * q;
    let three = step * least_symbols(a, step, false);
    let one = step * least_symbols(a, step, true);
    Ok(Worst { three, one })
}

// The refusals in 01's order.
#[tactic(auto, using(crate::proofs::Numbers::accepting), unfolding(crate::specs::Worst::worst_number, crate::specs::Worst::worst_rules, refusals::specs::Refusals::first_of))]
fn accept(a: usize, q: usize, n: usize) -> Result<(), Refusal>
    ensures { number_in result ≡ worst_number a q n }
{
    let s = segmentation::segments_for(a);
    if s.blocks == 0 {
        return Err(Refusal::BadLength);
    }
    if codeword::bad_symbol(q, n) {
        return Err(Refusal::BadAllocation);
    }
    Ok(())
}

// The least G' that gives every code block of a block of `a` bits what it needs, in units of `step` bits.
fn least_symbols(a: usize, step: usize, alone: bool) -> usize
    requires { Planned a step }
    ensures { result ≡ least_symbols (need_in alone a) (blocks (a + 24)) step }
{
    let s = segmentation::segments_for(a);
    let mut least: usize = 0;
    for r in 0..s.blocks {
        let size = segmentation::block::size_of(s, r);
        let filler = segmentation::block::filler_of(s, r);
        let units = need_of(size, filler, alone).div_ceil(step);
        least = least.max(s.blocks * units - r);
    }
    least
}

// What a code block of `k` bits with `f` filler bits needs.
// kept: a bool for which of two needs is meant: it picks one of two formulas that stand side by side, and a closure in its place would be longer.
#[tactic(auto, unfolding(crate::specs::Worst::need_by, crate::specs::Needs::whole, crate::specs::Needs::quarter, rate_matching::specs::SubBlocks::rows))]
fn need_of(k: usize, f: usize, alone: bool) -> usize
    requires { (k ≤ 6144) × (f ≤ k) }
    ensures { result ≡ need_by alone k f }
{
    if alone {
        3 * (k + 4) - 2 * f
    } else {
        24 * ((k + 35) / 32)
    }
}
