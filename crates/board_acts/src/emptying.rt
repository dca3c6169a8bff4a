//! Which rows of the TLB are emptied where mappings go.
ghost use Rattle.std.specs.Prelude.{◌≡◌, ◌∷◌, []};
ghost use Rattle.page_book.specs.Rows.{row_in};
ghost use Rattle.tlb_model.specs.Flushes.{OfEnv, OfPair, all_flushed, replaced_pair};

use bind_book::Binding;
use page_book::Pages;
use r3k_tlb::{Row, RowTest, Tlb};

/// The rows of an environment and of its pages, by the book of pages.
#[derive(Drop)]
struct OfDead<'a> {
    pages: &'a Pages,
    env: u8,
}

impl RowTest for OfDead<'_> {
    ghost use Rattle.page_book.specs.Rows.{row_in};
    ghost use Rattle.tlb_model.specs.Flushes.{is_of_env};

    ghost test = { λ d. is_of_env (row_in d.pages.now) d.env };

    fn holds(&self, row: Row) -> bool {
        row.pid() == self.env || self.pages.belongs_to(row.page(), self.env)
    }
}

/// Empties the rows of an environment that dies and of its pages. The book of pages is the one from before its pages are
/// released.
pub fn drop_dead(tlb: &mut Tlb, pages: &Pages, env: u8)
    ensures { tlb.new ≡ all_flushed (OfEnv (row_in pages.now) env ∷ []) tlb.old }
{
    tlb.drop_where(&OfDead { pages, env });
}

/// Empties the rows of the pair that is bound, and of the binding that it replaces, which is often the same pair.
#[inline(always)]
pub fn drop_bound(tlb: &mut Tlb, env: u8, vpn: u32, replaced: Option<Binding>)
    ensures { tlb.new ≡ all_flushed (OfPair vpn env ∷ replaced_pair env replaced) tlb.old }
{
    tlb.drop_pair(vpn, env);
    if let Some(binding) = replaced {
        if binding.vpn != vpn {
            tlb.drop_pair(binding.vpn, env);
        }
    }
}
