//! What granted calls do to claims of packets.
ghost use Rattle.std.specs.Prelude.{◌≡◌, ◌<◌, ◌^◌, Some};
ghost use Rattle.world_model.specs.Book.{running};
ghost use Rattle.world_model.specs.Downloads.{MayDownload};
ghost use Rattle.world_model.specs.May.{MayClaim};
ghost use Rattle.board_model.specs.Showing.{world_of};

use crate::board::Board;
use board_acts::unless_empty;
use call_verdicts::{claimed_filter, named_handler};

impl Board {
    ghost use Rattle.board_model.specs.Doing.{with_claimed, with_downloaded, with_unclaimed};
    ghost use Rattle.board_model.specs.Showing.{solo_of};

    /// The packets that a filter in the runner's memory matches, of so many atoms from an address on, are the runner's
    /// from now on, and go into a page of its own.
    #[inline(never)]
    pub(crate) fn claim(&mut self, env: u8, address: u32, atoms: u32, page: u32)
        requires runs { running self.old.slots.runner ≡ Some env }
        requires may { MayClaim (world_of self.old) env self.old.claims.next address atoms page }
        requires numbers { self.old.claims.next < 2 ^ 32 }
        ensures { self.new ≡ with_claimed self.old env address atoms page }
    {
        let filter = claimed_filter(self, env, address, atoms).unwrap();
        let _number = self.claims.claim(env, filter, page);
    }

    /// The runner's claim of this number has a handler from now on, of so many words from an address in the runner's
    /// memory on; of no words it is none.
    #[inline(never)]
    pub(crate) fn download(&mut self, env: u8, claim: u32, address: u32, words: u32)
        requires runs { running self.old.slots.runner ≡ Some env }
        requires may { MayDownload (solo_of self.old env) claim address words }
        ensures { self.new ≡ with_downloaded self.old env claim address words }
    {
        let named = named_handler(self, env, address, words).unwrap();
        self.claims.download(claim, unless_empty(&named));
    }

    /// The runner's claim of this number is withdrawn.
    pub(crate) fn unclaim(&mut self, env: u8, claim: u32)
        ensures { self.new ≡ with_unclaimed self.old env claim }
    {
        let _stood = self.claims.unclaim(env, claim);
    }
}
