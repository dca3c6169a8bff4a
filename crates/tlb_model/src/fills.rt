//! How often an environment was refilled.
ghost use Rattle.std.specs.Prelude.{◌≡◌};
ghost use Rattle.tlb_model.specs.Cache.{no_fills, with_forward, with_refill};

/// How many rows of the TLB were refilled for an environment, and how many of its misses it got as exceptions, each modulo
/// 2^32 (`docs/MACHINE.md`, "The TLB under the kernel").
#[derive(Clone, Copy)]
pub struct Fills {
    /// Rows that were refilled from its guaranteed mappings.
    pub guaranteed: u32,
    /// Rows that were refilled from its bindings.
    pub stripe: u32,
    /// Misses that the kernel forwarded to it.
    pub forwarded: u32,
}

impl Fills {
    /// Nothing was refilled, and no miss forwarded.
    pub fn none() -> Fills
        ensures { result ≡ no_fills }
    {
        Fills {
            guaranteed: 0,
            stripe: 0,
            forwarded: 0,
        }
    }

    /// One more row was refilled, from the guaranteed mappings or from the stripe.
    pub fn count_refill(&mut self, guaranteed: bool)
        ensures { self.new ≡ with_refill guaranteed self.old }
    {
        if guaranteed {
            self.guaranteed = self.guaranteed.wrapping_add(1);
        } else {
            self.stripe = self.stripe.wrapping_add(1);
        }
    }

    /// One more miss was forwarded.
    pub fn count_forward(&mut self)
        ensures { self.new ≡ with_forward self.old }
    {
        self.forwarded = self.forwarded.wrapping_add(1);
    }
}
