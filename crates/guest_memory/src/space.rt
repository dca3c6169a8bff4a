//! What an environment sees at its VPNs.
ghost use Rattle.std.specs.Prelude.{◌≡◌};
ghost use Rattle.guest_memory.specs.Look.{bound_mapping};
ghost use Rattle.guest_memory.specs.Space.{lookup};

use bind_book::{Binding, Bindings};
use env_frames::{Env, Mapping};
use std::marker::Model;

/// What an environment sees: its guaranteed mappings, and the bindings of its stripe.
#[derive(Drop)]
pub struct Space<'a> {
    pub env: &'a Env,
    pub bindings: &'a Bindings,
    /// The number of the environment, by which its stripe is found.
    pub number: u8,
}

impl<'a> Model for Space<'a> {
    ghost use Rattle.guest_memory.specs.Space.{SpaceValue};

    ghost Value = { SpaceValue };

    ghost view = { λ s. record { mappings = s.env.now.mappings; binds = s.bindings.now; number = s.number } };
}

/// A binding as the mapping that it makes.
fn mapping_by(binding: Binding) -> Mapping
    ensures { result ≡ bound_mapping binding }
{
    Mapping {
        vpn: binding.vpn,
        page: binding.page,
        writable: binding.writable,
    }
}

impl<'a> Space<'a> {
    /// The mapping of a VPN: the guaranteed one, else that of its binding.
    #[tactic(auto, unfolding(crate::specs::Space::lookup))]
    pub fn mapping(&self, vpn: u32) -> Option<Mapping>
        ensures { result ≡ lookup self.now vpn }
    {
        if let Some(mapping) = self.env.guaranteed(vpn) {
            return Some(mapping);
        }
        let binding = self.bindings.find(self.number, vpn)?;
        Some(mapping_by(binding))
    }
}
