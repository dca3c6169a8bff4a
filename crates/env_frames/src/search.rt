//! The search for the mapping of a VPN.
ghost use Rattle.std.specs.Prelude.{◌≡◌, ◌≢◌, ◌<◌, ℕ, length, slice_index, IfSome, IfNone};
ghost use Rattle.env_frames.specs.Frame.{IsRising, numbers};

use crate::mapping::Mapping;

/// The place of the mapping of a VPN, found by halving.
pub(crate) fn place_in(mappings: &[Mapping], vpn: u32) -> Option<usize>
    requires { IsRising (numbers mappings.now) }
    ensures within { IfSome result (λ i. i < length mappings.now) }
    ensures found { IfSome result (λ i. slice_index (numbers mappings.now) i ≡ vpn) }
    ensures none { IfNone result ((k : ℕ) → k < length mappings.now → slice_index (numbers mappings.now) k ≢ vpn) }
{
    let mut low = 0;
    let mut high = mappings.len();
    while low < high {
        let middle = low + (high - low) / 2;
        let here = mappings[middle].vpn;
        if here < vpn {
            low = middle + 1;
        } else if vpn < here {
            high = middle;
        } else {
            return Some(middle);
        }
    }
    None
}
