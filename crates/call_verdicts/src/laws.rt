//! The laws of verdicts.
ghost use Rattle.call_verdicts.specs.Granted.{AgainAsks, GrantedMay};

use page_book::law_lowest_free;
use revocation_book::law_richest;

/// What a granted call does it may do: the world has what its deed presupposes.
pub fn law_granted()
    ensures { GrantedMay }
{
    law_lowest_free();
}

/// A call is to be made again only where no page is free, and asks another environment, that with the most revocable
/// pages.
pub fn law_again()
    ensures { AgainAsks }
{
    law_richest();
}
