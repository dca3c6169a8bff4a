//! What granted calls do to pages.
ghost use Rattle.std.specs.Prelude.{◌≡◌, Some, None};
ghost use Rattle.page_book.specs.declared.row.PageRow.TheVariants.{Free, Owned};
ghost use Rattle.world_model.specs.Book.{running};
ghost use Rattle.world_model.specs.May.{MayAllocate, MayChange, MayLoad};
ghost use Rattle.board_model.specs.Showing.{book_of};

use crate::board::Board;
use page_book::Capabilities;

impl Board {
    ghost use Rattle.board_model.specs.Doing.{with_broken, with_freed, with_given_back, with_loaded, with_allocated};

    /// A free page is the runner's own from now on, with these words, and holds zeros.
    pub(crate) fn allocate(&mut self, env: u8, page: u32, words: Capabilities)
        requires runs { running self.old.slots.runner ≡ Some env }
        requires may { MayAllocate (book_of self.old) page }
        ensures { self.new ≡ with_allocated self.old env page words }
    {
        self.pages.alloc_at(env, page, words).unwrap();
        self.frames.zero(page);
    }

    /// A page of the runner's is nobody's from now on: nobody has it bound any more, and no claim puts packets there. It
    /// is no backup any more, and one page fewer is outstanding.
    pub(crate) fn free(&mut self, env: u8, page: u32)
        requires runs { running self.old.slots.runner ≡ Some env }
        requires may { MayChange (book_of self.old) env page }
        ensures { self.new ≡ with_given_back self.old env page }
    {
        self.pages.free(env, page).unwrap();
        self.bindings.break_page(page, None);
        self.machine.tlb.drop_page(page);
        self.claims.drop_page(page);
        self.revocations.freed(env, page);
    }

    /// A page of the runner's is the last of its backups.
    pub(crate) fn load(&mut self, env: u8, page: u32)
        requires runs { running self.old.slots.runner ≡ Some env }
        requires may { MayLoad (book_of self.old) env page }
        ensures { self.new ≡ with_loaded self.old env page }
    {
        self.revocations.load(env, page);
    }

    /// A page of the runner's has other words from now on, and nobody else has it bound any more.
    pub(crate) fn recap(&mut self, env: u8, page: u32, words: Capabilities)
        requires runs { running self.old.slots.runner ≡ Some env }
        requires may { MayChange (book_of self.old) env page }
        ensures { self.new ≡ with_broken self.old page (Owned env words) (Some env) }
    {
        self.pages.recap(env, page, words).unwrap();
        self.bindings.break_page(page, Some(env));
        self.machine.tlb.drop_page(page);
    }
}
