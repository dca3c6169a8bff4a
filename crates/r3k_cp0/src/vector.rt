//! Where exceptions go on.
ghost use Rattle.std.specs.Prelude.{◌≡◌};
ghost use Rattle.r3k_cp0.specs.Enter.{vector_of};

use mips_exec::{Exc, ExcCode};

/// The first address that is no user's, at which misses of user addresses go on.
const MISS_VECTOR: u32 = 0x8000_0000;

/// Where all others do.
const COMMON_VECTOR: u32 = 0x8000_0080;

/// The address at which the kernel goes on after an exception; `is_fit` says whether a row fits the bad address.
pub fn exception_vector(exc: &Exc, is_fit: bool) -> u32
    ensures { result ≡ vector_of exc.now is_fit }
{
    match exc.code {
        ExcCode::Tlbl | ExcCode::Tlbs if exc.bad < MISS_VECTOR && !is_fit => MISS_VECTOR,
        _ => COMMON_VECTOR,
    }
}
