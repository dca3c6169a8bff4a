//! The core of an environment.
ghost use Rattle.std.specs.Prelude.{◌≡◌, ◌<◌, IfOk, OnOk};
ghost use Rattle.core_file.specs.Core.{HasFewHeaders, core_text};

use crate::file::{push_headers, push_pages};
use crate::notes::push_notes;
use crate::pages::pages_seen;
use crate::runs::runs_of;
use aegis_limits::OutOfMemory;
use std::alloc::Global;
use world_model::WorldView;

/// The core of an environment of a world (`docs/REPORT.md`, "The core"): headers, notes, and the pages that it sees. Of a
/// dead one no page and no register is left.
#[tactic(auto, unfolding(crate::specs::Core::core_text))]
pub fn core<V: WorldView>(alloc: Global, view: &V, env: u8) -> Result<Vec<u8>, OutOfMemory>
    requires { env < (V.world view.now).count }
    ensures file { IfOk result (λ file. file.items ≡ core_text (V.world view.now) env) }
    ensures headers { OnOk result (HasFewHeaders (V.world view.now) env) }
{
    let pages = pages_seen(alloc, view, env)?;
    let runs = runs_of(alloc, &pages)?;
    let mut file = Vec::new(alloc);
    push_headers(&mut file, &runs)?;
    push_notes(&mut file, view, env)?;
    push_pages(&mut file, &pages)?;
    Ok(file)
}
