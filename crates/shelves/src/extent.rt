// Where a parcel lies.
ghost use Rattle.std.specs.Prelude.{◌≡◌, ◌+◌, ◌*◌, ◌/◌, ◌^◌, ◌<◌, ◌≤◌, MatchOption};

// `length` bytes, the first of them `from` places on.
#[derive(Clone, Copy)]
pub struct Extent {
    pub from: usize,
    pub length: usize,
    ghost fits: { from + length < 2 ^ 64 },
}

impl Extent {
    // Where one of its records lies.
    pub fn record(self, index: usize) -> Option<Extent>
        ensures { MatchOption result (self.length / 24 ≤ index) (λ e. (index < self.length / 24) × (e.from ≡ self.from + 24 * index) × (e.length ≡ 24)) }
    {
        if index >= self.length / 24 {
            return None;
        }
        Some(Extent {
            from: self.from + 24 * index,
            length: 24,
        })
    }
}
