//! Runs of pages.
ghost use Rattle.std.specs.Prelude.{◌≡◌, ◌≤◌, length, IfOk};
ghost use Rattle.aegis_limits.specs.Limits.{vpn_end};
ghost use Rattle.core_file.specs.Runs.{goes_on, run_of, runs_of};
ghost use Rattle.core_file.specs.Seen.{page_seen, pages_shown};

use crate::pages::SeenPage;
use aegis_limits::OutOfMemory;
use std::alloc::Global;

/// Pages at VPNs one after another that may all be stored to, or none.
#[derive(Clone, Copy)]
pub(crate) struct Run {
    /// The VPN of the first.
    pub first: u32,
    /// How many there are.
    pub count: u32,
    /// Whether they may be stored to.
    pub writable: bool,
}

impl Run {
    /// A page alone.
    fn of(page: &SeenPage<'_>) -> Run
        ensures { result ≡ run_of (page_seen page.now) }
    {
        Run {
            first: page.vpn,
            count: 1,
            writable: page.writable,
        }
    }

    /// Whether a page goes on where the run ends, and may be stored to as its pages may.
    fn goes_on(&self, page: &SeenPage<'_>) -> bool
        ensures { result ≡ goes_on self.now (page_seen page.now) }
    {
        self.first <= page.vpn
            && page.vpn - self.first == self.count
            && self.writable == page.writable
    }
}

/// The runs of pages.
pub(crate) fn runs_of(alloc: Global, pages: &[SeenPage<'_>]) -> Result<Vec<Run>, OutOfMemory>
    requires { length pages.now ≤ vpn_end }
    ensures { IfOk result (λ runs. runs.items ≡ runs_of (pages_shown pages.now)) }
{
    let mut runs = Vec::new(alloc);
    let [first, rest @ ..] = pages else {
        return Ok(runs);
    };
    let mut open = Run::of(first);
    for page in rest {
        if open.goes_on(page) {
            open.count += 1;
        } else {
            runs.push(open)?;
            open = Run::of(page);
        }
    }
    runs.push(open)?;
    Ok(runs)
}
