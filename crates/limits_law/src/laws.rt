//! Packets, items and the cursor within their limits.
ghost use Rattle.limits_law.specs.Cursor.{CursorsAreWithin};
ghost use Rattle.limits_law.specs.Fit.{ItemsAreFit};
ghost use Rattle.limits_law.specs.Numbers.{NumbersAreWithin};
ghost use Rattle.limits_law.specs.Packets.{AllIsPutOnWire, DropsAreWithin, SentAreFrames};
ghost use Rattle.limits_law.specs.Wired.{WireCarriesFrames, WiredAreWithin};

use call_verdicts::{law_again, law_granted};
use giving_law::law_origins;
use revocation_book::law_takable;
use sharing_law::{law_feed_licence, law_guaranteed_whole, law_whole};

/// Where events are within their limits, each packet that an environment has sent has 14 to 1,514 bytes, at each moment.
/// So all that environments send in a tick is put on the wire. Each packet that is dropped has 1 to 1,514 bytes.
pub fn law_packets()
    ensures sent { SentAreFrames }
    ensures put { AllIsPutOnWire }
    ensures drops { DropsAreWithin }
{
    law_again();
    law_granted();
    law_guaranteed_whole();
    law_origins();
    law_takable();
    law_whole();
}

/// What happens in a machine on a wire is within its limits if its own schedule is. If all are, and each machine starts as
/// its image boots, each packet on the wire has 14 to 1,514 bytes.
pub fn law_wired_packets()
    ensures within { WiredAreWithin }
    ensures frames { WireCarriesFrames }
{
    law_packets();
}

/// In each run of an accepted image every item that is given to an environment is fit to be shown: the registers of a
/// transfer are words, the record at boot has words and whole pages, and no backup has the number that stands for none. If
/// events are within their limits, its pages are the image's, its packet is one, and its line is there.
pub fn law_items_are_fit()
    ensures shown { ItemsAreFit }
    ensures numbers { NumbersAreWithin }
{
    law_again();
    law_feed_licence();
    law_granted();
    law_guaranteed_whole();
    law_takable();
}

/// In each run of an accepted image the cursor is at one of the image's slots, at each moment.
pub fn law_cursor()
    ensures { CursorsAreWithin }
{}
