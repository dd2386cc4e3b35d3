//! Remainders modulo the number of bits, by a multiplication in place of a division.

ghost use Rattle.std.specs.Prelude.{◌≡◌, ◌%◌, ◌<◌};
ghost use Rattle.token_bloom.specs.Modulus.{IsModulus};

/// A number of bits, and what remainders modulo it are taken with.
#[derive(Clone, Copy)]
pub(crate) struct Modulus {
    bits: u64,
    // how often the bits go into 2^64 - 1
    inverse: u64,
}

impl Modulus {
    pub(crate) fn of(bits: u64) -> Modulus
        requires { 0 < bits }
        ensures modulus { IsModulus result }
        ensures bits { result.bits ≡ bits }
    {
        Modulus {
            bits,
            inverse: u64::MAX / bits,
        }
    }

    /// What the number leaves. How often the bits go into it is found to within one.
    pub(crate) fn rest(self, number: u64) -> u64
        requires { IsModulus self }
        ensures { result ≡ number % self.bits }
    {
        let times = ((number as u128 * self.inverse as u128) >> 64) as u64;
        let left = number - times * self.bits;
        // Either is as likely as the other. LLVM builds this without a branch.
        if left < self.bits {
            left
        } else {
            left - self.bits
        }
    }
}
