// What a kind of value is to a book: codes of 64 bits, and a join of two values.
ghost use Rattle.std.specs.Prelude.{◌≡◌, ℕ, true, false, MatchOption};
ghost use Rattle.kinds.specs.Kinds.{ValueKind};

pub trait Kind: Copy + Drop {
    // The codes that fit, and their join, with its laws.
    ghost kind: { ValueKind };

    // The code that a value has.
    ghost code: { Self → ℕ };

    // The value of a code; none where the code does not fit.
    // Stays as it is: `read` is like `char::from_u32`, since an error type for `TryFrom` would say nothing more; `to_code` is its other half, which this trait promises with the rest of a kind, and a `From` for `u64` beside each kind would be no plainer.
    fn read(number: u64) -> Option<Self>
        ensures { MatchOption result (kind.fits number ≡ false) (λ v. code v ≡ number) };

    fn to_code(&self) -> u64
        ensures { result ≡ code self.now };

    fn join(self, other: Self) -> Self
        ensures { code result ≡ kind.join (code self) (code other) };

    ghost fits: { (v : Self) → kind.fits (code v) ≡ true };
}
