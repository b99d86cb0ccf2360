// The two ratios, from plain numbers.
ghost use Rattle.std.specs.Prelude.{◌≡◌, ◌≤◌};
ghost use Rattle.taking.specs.Ratios.{ratios_at, no_ratios};

use crate::Ratios;
use units::ByteExp;

impl Ratios {
    // Zeros, as C's call has them beside a refusal.
    pub fn none() -> Ratios
        ensures { result ≡ no_ratios }
    {
        Ratios {
            miss: 0.0,
            traffic: 0.0,
        }
    }
}

// The ratios of `misses` in `taken` references, at blocks of 2^b bytes. Every count of 32 bits is a
// binary64 number, so only the division rounds; the power of two moves the exponent alone.
pub(crate) fn rated(misses: u32, taken: u32, b: ByteExp) -> Ratios
    requires { (1 ≤ taken) × (b.0 ≤ 12) }
    ensures { result ≡ ratios_at misses taken b.0 }
{
    let miss = f64::from(misses) / f64::from(taken);
    let bytes = f64::from(1u32 << b.0);
    Ratios {
        miss,
        traffic: miss * bytes,
    }
}
