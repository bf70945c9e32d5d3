//! The two sums of a payload.
ghost use Rattle.std.specs.Prelude.{◌≡◌};
ghost use Rattle.request_ledger.specs.Sums.{no_sums, after_bytes};

/// The two sums of the bytes so far, each modulo 2^32.
#[derive(Clone, Copy)]
pub(crate) struct Sums {
    pub(crate) first: u32,
    pub(crate) second: u32,
}

impl Sums {
    /// The sums of no byte.
    #[inline(always)]
    pub(crate) fn none() -> Sums
        ensures { result ≡ no_sums }
    {
        Sums {
            first: 0,
            second: 0,
        }
    }

    /// The sums with these bytes behind those before.
    #[inline(always)]
    pub(crate) fn after(self, bytes: &[u8]) -> Sums
        ensures { result ≡ after_bytes self bytes.now }
    {
        let mut first = self.first;
        let mut second = self.second;
        for byte in bytes {
            first = first.wrapping_add(u32::from(*byte) + 1);
            second = second.wrapping_add(first);
        }
        Sums { first, second }
    }
}
