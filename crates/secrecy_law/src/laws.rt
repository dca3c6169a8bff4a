//! Who sees a page, and what the dead have.
ghost use Rattle.secrecy_law.specs.Dead.{DeadHaveNothing};
ghost use Rattle.secrecy_law.specs.Secrecy.{FreeIsUnseen, FreedIsUnseen, RecappedIsUnseen, SeenByRight};

use call_verdicts::law_granted;
use run_model::{law_accounts, law_boot_accounts, law_moments};
use sharing_law::{law_agreement, law_backups, law_bound, law_claims, law_live};

/// A free page is seen by nobody. Who sees a page that isn't guaranteed to it owns it, or has a live binding of it. After
/// the tick of a granted recap nobody sees the page but its owner, and after that of a granted free nobody does.
pub fn law_who_sees()
    ensures free { FreeIsUnseen }
    ensures right { SeenByRight }
    ensures recapped { RecappedIsUnseen }
    ensures freed { FreedIsUnseen }
{
    law_agreement();
    law_bound();
    law_live();
    law_moments();
}

/// A dead environment owns no page and sees none, has no binding, claim, backup, interrupt line or slot, is asked for no
/// page, and doesn't run.
pub fn law_dead()
    ensures { DeadHaveNothing }
{
    law_accounts();
    law_agreement();
    law_backups();
    law_boot_accounts();
    law_claims();
    law_granted();
}
