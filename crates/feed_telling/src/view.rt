//! What is read of a world to tell the items of its next phase.
ghost use Rattle.std.specs.Prelude.{◌≡◌, ◌<◌, ◌≤◌, ◌^◌, Some, true};
ghost use Rattle.aegis_limits.specs.Limits.{most_quantum, most_ticks};
ghost use Rattle.std.specs.Option.{option_map};
ghost use Rattle.external_event.specs.Limits.{lines};
ghost use Rattle.bind_book.specs.Stripe.{is_bound};
ghost use Rattle.world_model.specs.ClaimCalls.{claim_of};
ghost use Rattle.page_book.specs.Row.{belongs_to};
ghost use Rattle.world_model.specs.Book.{running, sees};
ghost use Rattle.world_model.specs.PageCalls.{page_bytes};
ghost use Rattle.world_model.specs.Tick.{act_now};
ghost use Rattle.world_model.specs.Verdict.{verdict};
ghost use Rattle.world_model.specs.World.{World, is_living};
ghost use Rattle.feed_telling.specs.Arriving.{arrival_by, page_left_by};
ghost use Rattle.feed_telling.specs.Tell.{act_shown, timer_when};

use crate::act::NextAct;
use aegis_limits::PAGE_SIZE;
use external_event::PacketBytes;
use mips_exec::Cpu;
use revocation_book::Pending;
use world_model::{Call, Timer, Verdict};

/// Where a packet goes: to which claim, of which environment, and into which page.
#[derive(Clone, Copy)]
pub struct Arrival {
    pub env: u8,
    pub claim: u32,
    pub page: u32,
}

/// What shows a world of the model to whoever tells the items of its next phase. Environments and pages are named by
/// number.
pub trait FeedView {
    /// The world that it shows.
    ghost world: { Self → World };

    /// What the runner's next step does.
    fn next_act(&self, runner: u8) -> NextAct
        requires { running (world self.now).book.runner ≡ Some runner }
        ensures { result ≡ act_shown (act_now (world self.now) runner) };

    /// The runner's registers.
    fn runner_registers(&self, runner: u8) -> &Cpu
        requires { running (world self.now).book.runner ≡ Some runner }
        ensures { result.now ≡ ((world self.now).solos runner).cpu };

    /// The verdict on a call of the runner's.
    fn verdict(&self, runner: u8, call: Option<Call>) -> Verdict
        requires runs { running (world self.now).book.runner ≡ Some runner }
        requires numbers { (world self.now).book.next_claim < 2 ^ 32 }
        ensures { result ≡ verdict (world self.now) runner call };

    /// What the timer answers after the runner's tick.
    fn timer(&self) -> Timer
        ensures { result ≡ timer_when (world self.now) (world self.now).book.runner };

    /// Whether there is an environment of this number, and it lives.
    fn is_living(&self, env: u8) -> bool
        ensures { result ≡ is_living (world self.now) env };

    /// What an environment that lives is asked for and hasn't given back.
    fn pending(&self, env: u8) -> Option<Pending>
        requires { is_living (world self.now) env ≡ true }
        ensures { result ≡ (world self.now).book.pending env };

    /// How many pages there are.
    fn page_count(&self) -> u32
        ensures { result ≡ (world self.now).book.page_count };

    /// Whether a page is an environment's, guaranteed to it or not.
    fn belongs_to(&self, env: u8, page: u32) -> bool
        ensures { result ≡ belongs_to env ((world self.now).book.pages page) };

    /// Whether an environment has bound a page.
    fn has_bound(&self, env: u8, page: u32) -> bool
        ensures { result ≡ is_bound page ((world self.now).book.binds env) };

    /// Whether an environment owns a page that isn't guaranteed to it, or has bound it.
    fn sees(&self, env: u8, page: u32) -> bool
        ensures { result ≡ sees (world self.now).book env page };

    /// The bytes of a page that somebody owns; of another there are none.
    fn page_bytes(&self, page: u32) -> &[u8]
        ensures { result.now ≡ page_bytes (world self.now) page };

    /// The claim to which a packet goes, if anybody claims it.
    fn arrival(&self, packet: &PacketBytes) -> Option<Arrival>
        ensures { result ≡ option_map arrival_by (claim_of (world self.now).book packet.now) };

    /// All bytes of the ring page behind a packet; none where nobody claims it, or it is lost.
    fn page_left(&self, packet: &PacketBytes) -> Option<[u8; PAGE_SIZE]>
        ensures { result ≡ page_left_by (world self.now) packet.now };

    /// Whose an interrupt line is, if anybody's.
    fn line_owner(&self, line: u8) -> Option<u8>
        requires { line < lines }
        ensures { result ≡ (world self.now).book.lines line };

    /// The ticks of a quantum.
    fn quantum(&self) -> u32
        ensures quantum { result ≡ (world self.now).book.quantum }
        ensures most { result ≤ most_quantum };

    /// Ticks since the boot.
    fn time(&self) -> u32
        requires { (world self.now).book.time ≤ most_ticks }
        ensures time { result ≡ (world self.now).book.time }
        ensures most { result ≤ most_ticks };
}
