//! What is due to an environment, and what is told to it.
ghost use Rattle.due_law.specs.Bare.{BareIsPrivate, BareIsTold};
ghost use Rattle.due_law.specs.Due.{DifferenceIsTold, FeedIsDue};
ghost use Rattle.due_law.specs.Private.{PrivateIsTold};

use call_verdicts::{law_again, law_granted};
use revocation_book::{law_richest, law_takable};
use run_model::{law_alone, law_time};

/// Each item that an environment is given which accepts nobody is due where it comes: its starts where it doesn't run,
/// a step where it runs, one answer to each call, the end of its slice and its death where the timer says so. What
/// comes besides is neither a step, a start, an end, a death of excess nor an answer.
pub fn law_feed_is_due()
    ensures { FeedIsDue }
{
    law_granted();
    law_alone();
}

/// The first items in which the feeds of such an environment differ in two systems, in which it has one record and one
/// quantum, are two answers, or one is an item of another kind than its own.
pub fn law_difference_is_told()
    ensures { DifferenceIsTold }
{
    law_feed_is_due();
}

/// An environment that accepts nobody, and to which nothing comes but its own items, answers, and the pages that the
/// answered deeds bring, learns of others by the answers to its calls alone: in two systems in which these are the same
/// as far as both go, its feeds are the same as far as both go.
pub fn law_private_is_told()
    ensures { PrivateIsTold }
{
    law_feed_is_due();
}

/// An environment that accepts nobody, that no event asks for pages, and that calls for no page, claim, line or backup
/// is private. So it learns of others by the answers to its calls alone.
pub fn law_bare_is_told()
    ensures private { BareIsPrivate }
    ensures told { BareIsTold }
{
    law_granted();
    law_again();
    law_richest();
    law_takable();
    law_time();
    law_alone();
    law_private_is_told();
}
