//! What is read of a world to decide on a call.
ghost use Rattle.std.specs.Prelude.{◌≡◌, ◌<◌, ◌≤◌, ◌^◌, Some, is_some, length};
ghost use Rattle.std.specs.Option.{option_map};
ghost use Rattle.aegis_limits.specs.Limits.{console_size};
ghost use Rattle.external_event.specs.Limits.{lines};
ghost use Rattle.env_frames.specs.Context.{handler_of};
ghost use Rattle.page_book.specs.Rows.{free_below, lowest_free};
ghost use Rattle.bind_book.specs.Stripe.{binding_at};
ghost use Rattle.filter_tree.specs.Claims.{claim_refusal};
ghost use Rattle.revocation_book.specs.Backups.{load_refusal};
ghost use Rattle.revocation_book.specs.Richest.{richest};
ghost use Rattle.world_model.specs.Book.{page_row, running};
ghost use Rattle.world_model.specs.Rings.{ring_of};
ghost use Rattle.world_model.specs.Call.{good_range};
ghost use Rattle.world_model.specs.PageCalls.{is_guaranteed_vpn, revocations};
ghost use Rattle.world_model.specs.Queries.{life_at};
ghost use Rattle.world_model.specs.SlotCalls.{gift_refusal, slot_at, turn_slot};
ghost use Rattle.world_model.specs.Solo.{sight};
ghost use Rattle.world_model.specs.World.{World};

use aegis_limits::Version;
use env_frames::Context;
use filter_core::Filter;
use filter_tree::ClaimNo;
use mips_exec::Cpu;
use page_book::PageRow;
use revocation_book::LoadNo;
use world_model::{Code, Hold, Life};

/// What shows a world of the model to whoever decides on the runner's calls. Environments are named by number; `env` is
/// the runner.
pub trait CallView {
    /// The world that it shows.
    ghost world: { Self → World };

    /// The runner's registers.
    fn registers(&self, env: u8) -> &Cpu
        requires { running (world self.now).book.runner ≡ Some env }
        ensures { result.now ≡ ((world self.now).solos env).cpu };

    /// How many bytes the runner's console holds.
    fn console_size(&self, env: u8) -> usize
        requires { running (world self.now).book.runner ≡ Some env }
        ensures size { result ≡ length ((world self.now).solos env).console }
        ensures most { result ≤ console_size };

    /// How many packets the runner has sent.
    fn count_sent(&self, env: u8) -> usize
        requires { running (world self.now).book.runner ≡ Some env }
        ensures { result ≡ length ((world self.now).solos env).sent };

    /// Bytes of the runner's memory, so many from an address on, if that is a good range: it lies in one page, and the
    /// page is mapped.
    fn range(&self, env: u8, address: u32, size: u32) -> Option<&[u8]>
        requires { running (world self.now).book.runner ≡ Some env }
        ensures { option_map (λ r. r.now) result ≡ good_range (sight ((world self.now).solos env)) address size };

    /// Whether a page is guaranteed to the runner at a VPN.
    fn is_guaranteed(&self, env: u8, vpn: u32) -> bool
        requires { running (world self.now).book.runner ≡ Some env }
        ensures { result ≡ is_guaranteed_vpn ((world self.now).solos env) vpn };

    /// Whether the runner has bound a page at a VPN.
    fn is_bound(&self, env: u8, vpn: u32) -> bool
        requires { running (world self.now).book.runner ≡ Some env }
        ensures { result ≡ is_some (binding_at ((world self.now).solos env).version ((world self.now).solos env).binds vpn) };

    /// Whose a page is, if there is one of this number.
    fn page_row(&self, page: u32) -> Option<PageRow>
        ensures { result ≡ page_row (world self.now).book page };

    /// The version of the image.
    fn version(&self) -> Version
        ensures { result ≡ (world self.now).book.version };

    /// The environment other than the runner that has the most revocable pages, if another has any.
    fn richest(&self, env: u8) -> Option<u8>
        requires { running (world self.now).book.runner ≡ Some env }
        ensures { result ≡ richest (revocations (world self.now).book) env };

    /// The lowest free page, if one is free.
    fn lowest_free(&self) -> Option<u32>
        ensures { result ≡ lowest_free (world self.now).book.pages (world self.now).book.page_count };

    /// Who owns and holds a slot, if anybody does; none where there is no such slot.
    fn slot(&self, slot: u32) -> Option<Option<Hold>>
        ensures { result ≡ slot_at (world self.now).book slot };

    /// Why the runner can't hand on the rest of its slice, or for a later its slot too.
    fn refuse_gift(&self, later: bool) -> Option<Code>
        ensures { result ≡ gift_refusal later (world self.now).book.runner (turn_slot (world self.now).book) };

    /// Why a filter of an environment's is refused beside the claims that stand, if it is.
    fn refuse_claim(&self, env: u8, filter: &Filter) -> Option<ClaimNo>
        ensures { result ≡ claim_refusal (world self.now).book.claims env filter.now };

    /// The number of the next claim.
    fn next_claim(&self) -> u32
        requires { (world self.now).book.next_claim < 2 ^ 32 }
        ensures { result ≡ (world self.now).book.next_claim };

    /// Whether the runner has a claim of this number.
    fn has_claim(&self, env: u8, claim: u32) -> bool
        requires { running (world self.now).book.runner ≡ Some env }
        ensures { result ≡ is_some (ring_of ((world self.now).solos env).rings claim) };

    /// Why a page isn't loaded as one more backup of the runner's, if it isn't.
    fn refuse_load(&self, env: u8, page: u32) -> Option<LoadNo>
        requires { running (world self.now).book.runner ≡ Some env }
        ensures { result ≡ load_refusal ((world self.now).book.backups env) page };

    /// Whose an interrupt line is, if anybody's.
    fn line_owner(&self, line: u8) -> Option<u8>
        requires { line < lines }
        ensures { result ≡ (world self.now).book.lines line };

    /// Whether an environment lives, or why it died; none where there is no such environment.
    fn life_at(&self, number: u32) -> Option<Life>
        ensures { result ≡ life_at (world self.now) number };

    /// The mask of those whom an environment accepts.
    fn mask(&self, env: u8) -> u32
        requires { env < (world self.now).count }
        ensures { result ≡ ((world self.now).solos env).mask };

    /// The handler of a context of an environment; 0 is none.
    fn handler(&self, env: u8, context: Context) -> u32
        requires { env < (world self.now).count }
        ensures { result ≡ handler_of ((world self.now).solos env).handlers context };

    /// How many pages are free.
    fn free_pages(&self) -> u32
        ensures { result ≡ free_below (world self.now).book.pages (world self.now).book.page_count };

    /// How many pages there are.
    fn page_count(&self) -> u32
        ensures { result ≡ (world self.now).book.page_count };

    /// How many environments there are.
    fn env_count(&self) -> u32
        ensures { result ≡ (world self.now).count };

    /// How many slots there are.
    fn slot_count(&self) -> u32
        ensures { result ≡ (world self.now).book.slot_count };

    /// The ticks of a quantum.
    fn quantum(&self) -> u32
        ensures { result ≡ (world self.now).book.quantum };

    /// How many quanta an environment owes.
    fn excess(&self, env: u8) -> u32
        ensures { result ≡ (world self.now).book.excess env };

    /// Ticks since the boot.
    fn time(&self) -> u32
        ensures { result ≡ (world self.now).book.time };
}
