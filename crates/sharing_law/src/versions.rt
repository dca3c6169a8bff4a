//! The version of the image.
ghost use Rattle.sharing_law.specs.Versions.{BindingsInRows, VersionsAgree};

use crate::right::law_given_licence;
use call_verdicts::{law_again, law_granted};
use revocation_book::law_takable;

/// At each moment of every run the book has the image's version, and so has each environment of the image, the dead
/// too.
pub fn law_versions()
    ensures { VersionsAgree }
{
    law_given_licence();
}

/// Every binding that the book lists stands in the row of its VPN by this version.
pub fn law_rows()
    ensures { BindingsInRows }
{
    law_granted();
    law_again();
    law_takable();
    law_given_licence();
}
