//! What the TLB holds in each tick of a run: how accesses are looked up in its rows, how the kernel refills a row from the
//! guaranteed mappings or the bindings of the environment that runs, and which rows it empties (`docs/MACHINE.md`,
//! "The TLB under the kernel"). The definitions stand in `specs/`; the laws say that no row outlives its mapping.
#![tactic(auto)]

mod fills;
mod laws;

pub use fills::Fills;
pub use laws::law_coherence;
