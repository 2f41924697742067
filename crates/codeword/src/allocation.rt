// What 01 asks of an allocation and of given bits, the tests behind the numbers 3 and 2, and the code blocks' shares of an accepted one:
// all that Build and Receive have in common.

ghost use Rattle.std.specs.Prelude.{◌≡◌};
ghost use Rattle.codeword.specs.Build.{bad_modulation, bad_layers, bad_symbol, bad_allocation, share_of, bad_bits};

// Number 3 for Q.
#[tactic(auto, unfolding(crate::specs::Build::bad_modulation))]
fn bad_modulation(q: usize) -> bool
    ensures { result ≡ bad_modulation q }
{
    !(q == 2 || q == 4 || q == 6)
}

// Number 3 for N.
#[tactic(auto, unfolding(crate::specs::Build::bad_layers))]
fn bad_layers(n: usize) -> bool
    ensures { result ≡ bad_layers n }
{
    n == 0 || n > 4
}

// Number 3 for Q and N.
#[tactic(auto, unfolding(crate::specs::Build::bad_symbol))]
pub fn bad_symbol(q: usize, n: usize) -> bool
    ensures { result ≡ bad_symbol q n }
{
    bad_modulation(q) || bad_layers(n)
}

// Number 3 for C code blocks. Q and N are looked at before anything is divided by N·Q.
#[tactic(auto, using(crate::proofs::Accepted::symbol_step), unfolding(crate::specs::Build::bad_allocation, crate::specs::Build::bad_length, crate::specs::Shares::symbols))]
pub fn bad_allocation(blocks: usize, q: usize, n: usize, g: usize) -> bool
    ensures { result ≡ bad_allocation blocks q n g }
{
    if bad_symbol(q, n) {
        return true;
    }
    if g > 172800 {
        return true;
    }
    let step = n * q;
    if g % step != 0 {
        return true;
    }
    g / step < blocks
}

// Number 2: a byte above 1 among the bits. Every byte is looked at, with no branch, so that the loop runs many bytes at a time.
pub fn bad_bits(bits: &[u8]) -> bool
    ensures { result ≡ bad_bits bits.now }
{
    let mut seen: u8 = 0;
    for bit in bits {
        seen |= *bit;
    }
    seen > 1
}

// E of code block r of an accepted allocation; 0 where there is no such code block, or the allocation is refused.
#[tactic(auto, using(crate::proofs::Accepted::allocated), unfolding(crate::specs::Build::share_of, crate::specs::Shares::share, crate::specs::Shares::symbols))]
pub fn share_of(blocks: usize, q: usize, n: usize, g: usize, r: usize) -> usize
    ensures { result ≡ share_of blocks q n g r }
{
    if r >= blocks {
        return 0;
    }
    if bad_allocation(blocks, q, n, g) {
        return 0;
    }
    let step = n * q;
    let symbols = g / step;
    if r + symbols % blocks + 1 <= blocks {
        step * (symbols / blocks)
    } else {
        step * ((symbols + (blocks - 1)) / blocks)
    }
}
