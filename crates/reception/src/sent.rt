// What was sent of one code block.
ghost use Rattle.std.specs.Prelude.{◌+◌, ◌≤◌};
ghost use Rattle.rate_matching.specs.SubBlocks.{rows};
ghost use Rattle.rate_matching.specs.Circle.{circle_length};
ghost use Rattle.bit_placement.specs.inner.Along.{Sends};

// A code block of size k, of which `filler` are filler, each stream with 4 places more, sent with redundancy version `version`, and its share `soft` of the soft
// buffer, which cuts its circle.
#[derive(Clone, Copy)]
pub(crate) struct Sent {
    pub k: usize,
    pub filler: usize,
    pub soft: usize,
    pub version: usize,
    ghost sends: { Sends (k + 4) filler soft version (circle_length (rows (k + 4))) },
    ghost holds: { filler ≤ k },
}
