//! What granted calls do to their caller's own part: its console, sent packets, handlers and mask; and its bindings.
ghost use Rattle.std.specs.Prelude.{◌≡◌, ◌<◌, Some};
ghost use Rattle.aegis_limits.specs.Limits.{vpn_end};
ghost use Rattle.page_book.specs.Rows.{row_in};
ghost use Rattle.world_model.specs.Book.{running};
ghost use Rattle.world_model.specs.OwnCalls.{MayOwn};
ghost use Rattle.board_model.specs.Sound.{IsOwned};

use crate::board::Board;
use bind_book::Binding;
use board_acts::{drop_bound, put, send};
use world_model::OwnDeed;

impl Board {
    ghost use Rattle.board_model.specs.Doing.{after_own_deed, with_bound, with_unbound};
    ghost use Rattle.board_model.specs.Showing.{solo_of};

    /// The runner does this to itself alone, which it may.
    #[inline(always)]
    pub(crate) fn do_own(&mut self, env: u8, own: OwnDeed)
        requires runs { running self.old.slots.runner ≡ Some env }
        requires may { MayOwn (solo_of self.old env) own }
        ensures { self.new ≡ after_own_deed self.old env own }
    {
        self.law_sound();
        match own {
            OwnDeed::Puts { address, size } => put(
                &mut self.roster,
                &self.frames,
                &self.bindings,
                env,
                address,
                size,
            ),
            OwnDeed::Sends { address, size } => send(
                &mut self.roster,
                &self.frames,
                &self.bindings,
                env,
                address,
                size,
            ),
            OwnDeed::Handles { context, address } => self.roster.handle(env, context, address),
            OwnDeed::Accepts(mask) => self.roster.accept(env, mask),
        }
    }

    /// A binding of the runner's takes the place of the one in its row.
    #[inline(always)]
    pub(crate) fn bind(&mut self, env: u8, binding: Binding)
        requires runs { running self.old.slots.runner ≡ Some env }
        requires within { binding.vpn < vpn_end }
        requires owned { IsOwned (row_in self.old.pages binding.page) }
        ensures { self.new ≡ with_bound self.old env binding }
    {
        let replaced = self
            .bindings
            .bind(env, binding.vpn, binding.page, binding.writable);
        drop_bound(&mut self.machine.tlb, env, binding.vpn, replaced);
    }

    /// The binding of a VPN of the runner's goes, if there is one.
    #[inline(always)]
    pub(crate) fn unbind(&mut self, env: u8, vpn: u32)
        requires runs { running self.old.slots.runner ≡ Some env }
        requires within { vpn < vpn_end }
        ensures { self.new ≡ with_unbound self.old env vpn }
    {
        self.bindings.unbind(env, vpn);
        self.machine.tlb.drop_pair(vpn, env);
    }
}
