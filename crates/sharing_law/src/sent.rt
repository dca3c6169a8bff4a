//! What environments send.
ghost use Rattle.sharing_law.specs.Sent.{SentIsWithin};

use crate::right::law_given_licence;
use call_verdicts::law_granted;

/// At each moment of every run each environment has sent at most 256 packets, by its calls and by its handlers, each of
/// at most 1,514 bytes.
pub fn law_sent()
    ensures { SentIsWithin }
{
    law_granted();
    law_given_licence();
}
