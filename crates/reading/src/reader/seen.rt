// Which dots have come: one bit for each dot of each replica. Should two dots share a bit, one that has not come may seem to have.
ghost use Rattle.std.specs.Prelude.{◌≡◌, ℕ, ◌<◌, true};
ghost use Rattle.reading.specs.Seen.{bit_of, is_set};

use causal::dots::Dot;

// The bytes for all bits.
const BYTES: usize = 131072;

#[derive(Drop)]
pub(crate) struct SeenDots {
    bits: [u8; BYTES],
}

impl SeenDots {
    // No dot has come.
    pub(crate) fn new() -> Self {
        SeenDots { bits: [0; BYTES] }
    }

    // Whether the dot's bit is set.
    pub(crate) fn may_have(&self, dot: Dot) -> bool
        ensures { result ≡ is_set self.now.bits (bit_of dot) }
    {
        let bit = bit_of(dot);
        (self.bits[bit / 8] >> (bit % 8)) & 1 == 1
    }

    // Sets the dot's bit; the bits that are set stay so.
    pub(crate) fn note(&mut self, dot: Dot)
        ensures set { is_set self.new.bits (bit_of dot) ≡ true }
        ensures kept { (bit : ℕ) → is_set self.old.bits bit ≡ true → is_set self.new.bits bit ≡ true }
    {
        let bit = bit_of(dot);
        self.bits[bit / 8] |= 1 << (bit % 8);
    }
}

// The number of the dot's bit.
fn bit_of(dot: Dot) -> usize
    ensures same { result ≡ bit_of dot }
    ensures within { result < 1048576 }
{
    (usize::from(dot.counter) * 16 + usize::from(dot.replica)) % (8 * BYTES)
}
