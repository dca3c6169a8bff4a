//! The book's guaranteed mappings.
ghost use Rattle.sharing_law.specs.Kept.{KeptAgree, LeadsAgree};

use crate::right::law_given_licence;
use call_verdicts::{law_again, law_granted};
use revocation_book::law_takable;

/// The book's guaranteed mappings of each environment are its guaranteed pages, one by one, at the same VPNs and in the
/// same modes. Each leads to a page that is guaranteed to the environment, no two lead to one page, and the dead have none.
pub fn law_kept()
    ensures { KeptAgree }
{
    law_granted();
    law_again();
    law_takable();
    law_given_licence();
}

/// So where a VPN leads by the book, a guaranteed mapping first and else a binding, is where it leads by the environment
/// alone.
pub fn law_leads()
    ensures { LeadsAgree }
{
    law_granted();
    law_again();
    law_takable();
    law_given_licence();
}
