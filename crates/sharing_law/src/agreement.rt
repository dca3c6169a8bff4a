//! The book and the environments.
ghost use Rattle.sharing_law.specs.Agreement.{BackupsAreOwned, BooksAgree, BoundIsAllocated, ClaimsAgree, ClaimsAreApart, ClaimsAreSound, PagesEnd};

use call_verdicts::{law_again, law_granted};
use filter_core::law_agree;
use revocation_book::law_takable;

/// Each environment has just the bindings that the book lists for it, and sees just the pages that by the book it owns
/// or has bound, with the bytes that their owner sees.
#[tactic(auto, using(crate::proofs::Agreeing::books_agree))]
pub fn law_agreement()
    ensures { BooksAgree }
{
    law_granted();
    law_again();
    law_takable();
}

/// No page is bound that is free or guaranteed.
#[tactic(auto, using(crate::proofs::Agreeing::bound_is_allocated))]
pub fn law_bound()
    ensures { BoundIsAllocated }
{
    law_granted();
    law_again();
    law_takable();
}

/// The rows of pages from the page count on are free, at each moment.
pub fn law_pages_end()
    ensures { PagesEnd }
{
    law_granted();
    law_again();
    law_takable();
}

/// Each environment has just the claims that the book lists for it, into the pages that the book says.
#[tactic(auto, using(crate::proofs::Agreeing::claims_agree))]
pub fn law_claims()
    ensures { ClaimsAgree }
{
    law_granted();
    law_again();
    law_takable();
}

/// Each claim that the book lists has a filter that is one, goes into a page that its environment owns, and no other has
/// its number.
pub fn law_claim_pages()
    ensures { ClaimsAreSound }
{
    law_granted();
    law_again();
    law_takable();
}

/// Each backup is a page that its environment owns, none is loaded twice, and an environment has at most 64.
#[tactic(auto, using(crate::proofs::Agreeing::backups_are_owned))]
pub fn law_backups()
    ensures { BackupsAreOwned }
{
    law_granted();
    law_again();
    law_takable();
}

/// Claims of two environments don't overlap: no packet is matched by both.
#[tactic(auto, using(crate::proofs::Agreeing::claims_are_apart))]
pub fn law_claims_apart()
    ensures { ClaimsAreApart }
{
    law_granted();
    law_again();
    law_takable();
    law_agree();
}
