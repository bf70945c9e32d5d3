//! A float's size, from its bits.
ghost use Rattle.std.specs.Prelude.{◌≡◌, ◌*◌, ◌^◌, ◌<◌};
ghost use Rattle.shortest_float.specs.Sizes.{IsFinite};

/// The bit that a normal float's significand has above the others.
pub(crate) const HIDDEN: u64 = 1 << 52;

/// The bits of infinity.
pub(crate) const INFINITY: u64 = 2047 << 52;

/// The size of a finite float that is not 0: `significand` * 2 ^ `exponent` times the least float above 0.
#[derive(Clone, Copy)]
pub(crate) struct Size {
    /// The float's bits, without its sign.
    pub(crate) bits: u64,
    pub(crate) significand: u64,
    pub(crate) exponent: u64,
}

impl Size {
    /// The size that the bits of a float say, without its sign (IEEE 754-2019, section 3.4).
    #[inline(always)]
    pub(crate) fn of_bits(bits: u64) -> Size
        requires { (0 < bits) × (bits < 2047 * 2 ^ 52) }
        ensures same { result.bits ≡ bits }
        ensures finite { IsFinite bits result.significand result.exponent }
    {
        if bits < HIDDEN {
            return Size {
                bits,
                significand: bits,
                exponent: 0,
            };
        }
        Size {
            bits,
            significand: HIDDEN + bits % HIDDEN,
            exponent: bits / HIDDEN - 1,
        }
    }
}
