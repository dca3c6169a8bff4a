//! What can be read of a world.
ghost use Rattle.std.specs.Prelude.{◌≡◌, ◌<◌, ◌≤◌, length, slice_get};
ghost use Rattle.std.specs.Option.{option_map};
ghost use Rattle.world_model.specs.Book.{running};
ghost use Rattle.aegis_limits.specs.Limits.{excess_limit, most_stripe_rows};
ghost use Rattle.env_frames.specs.Context.{handler_of};
ghost use Rattle.world_model.specs.Solo.{sight};
ghost use Rattle.world_model.specs.View.{mapped_seen, owned_bytes, view_seen};
ghost use Rattle.world_model.specs.World.{World};

use crate::life::Life;
use crate::slot::Runner;
use aegis_limits::Version;
use bind_book::Binding;
use env_frames::Context;
use kernel_journal::Row;
use mips_exec::Cpu;

/// A guaranteed page: its VPN, whether it may be stored to, and its bytes.
#[derive(Clone, Copy)]
pub struct PageView<'a> {
    pub vpn: u32,
    pub writable: bool,
    pub bytes: &'a [u8],
}

/// A page that an environment sees at a VPN: whether it may be stored to, and its bytes.
#[derive(Clone, Copy)]
pub struct MappedView<'a> {
    pub writable: bool,
    pub bytes: &'a [u8],
}

/// What shows a world of the model, to be read. Environments are named by number; there are `envs()` of them, from 0
/// on.
pub trait WorldView {
    /// The world that it shows.
    ghost world: { Self → World };

    /// The version of the image.
    fn version(&self) -> Version
        ensures { result ≡ (world self.now).book.version };

    /// How many environments there are.
    fn envs(&self) -> u8
        ensures { result ≡ (world self.now).count };

    /// Ticks since the boot.
    fn time(&self) -> u32
        ensures { result ≡ (world self.now).book.time };

    /// The eight bytes of an environment's name.
    fn name(&self, env: u8) -> [u8; 8]
        requires { env < (world self.now).count }
        ensures { result ≡ ((world self.now).solos env).name };

    /// Whether an environment lives, or why it died.
    fn life(&self, env: u8) -> Life
        requires { env < (world self.now).count }
        ensures { result ≡ ((world self.now).solos env).life };

    /// An environment's registers as they stand.
    fn cpu(&self, env: u8) -> Cpu
        requires { env < (world self.now).count }
        ensures { result ≡ ((world self.now).solos env).cpu };

    /// The mask of those from whom an environment accepts yields and transfers.
    fn mask(&self, env: u8) -> u32
        requires { env < (world self.now).count }
        ensures { result ≡ ((world self.now).solos env).mask };

    /// The handler of a context of an environment; 0 is none.
    fn handler(&self, env: u8, context: Context) -> u32
        requires { env < (world self.now).count }
        ensures { result ≡ handler_of ((world self.now).solos env).handlers context };

    /// What an environment wrote to its console.
    fn console(&self, env: u8) -> &[u8]
        requires { env < (world self.now).count }
        ensures { result.now ≡ ((world self.now).solos env).console };

    /// How many packets an environment sent.
    fn sent_count(&self, env: u8) -> usize
        requires { env < (world self.now).count }
        ensures { result ≡ length ((world self.now).solos env).sent };

    /// The packet of this place among those that an environment sent, in order; none past the last.
    fn sent_packet(&self, env: u8, place: usize) -> Option<&[u8]>
        requires { env < (world self.now).count }
        ensures { option_map (λ r. r.now) result ≡ slice_get ((world self.now).solos env).sent place };

    /// How many guaranteed pages an environment has.
    fn kept_count(&self, env: u8) -> usize
        requires { env < (world self.now).count }
        ensures { result ≡ length ((world self.now).solos env).kept };

    /// The guaranteed page at this place of an environment's, by rising VPN; none past the last.
    fn kept_page(&self, env: u8, place: usize) -> Option<PageView<'_>>
        requires { env < (world self.now).count }
        ensures { option_map view_seen result ≡ slice_get ((world self.now).solos env).kept place };

    /// How many pages of physical memory there are.
    fn page_count(&self) -> u32
        ensures { result ≡ (world self.now).book.page_count };

    /// The bytes of a page that an environment owns; none of one that is guaranteed to it, or that it has
    /// merely bound.
    fn owned_page(&self, env: u8, page: u32) -> Option<&[u8]>
        requires env { env < (world self.now).count }
        requires page { page < (world self.now).book.page_count }
        ensures { option_map (λ r. r.now) result ≡ owned_bytes (((world self.now).solos env).seen page) };

    /// The binding that stands in this row, below the rows of a stripe, of an environment's, if one does.
    fn binding(&self, env: u8, row: u32) -> Option<Binding>
        requires env { env < (world self.now).count }
        requires row { row < most_stripe_rows }
        ensures { result ≡ ((world self.now).solos env).binds row };

    /// What an environment sees at a VPN, if a page is mapped there.
    fn sight(&self, env: u8, vpn: u32) -> Option<MappedView<'_>>
        requires { env < (world self.now).count }
        ensures { option_map mapped_seen result ≡ sight ((world self.now).solos env) vpn };

    /// Who runs, if anybody does.
    fn runner(&self) -> Option<u8>
        ensures { result ≡ running (world self.now).book.runner };

    /// Who runs, for how many ticks more, and whether in the slice or in grace; none where nobody runs.
    fn running(&self) -> Option<Runner>
        ensures { result ≡ (world self.now).book.runner };

    /// The cursor: the slot of the turn that runs, or of the last one.
    fn slot(&self) -> u32
        ensures { result ≡ (world self.now).book.cursor };

    /// An environment's excess: the quanta that it ran past its slices and hasn't forfeited yet, 0 to 8.
    fn excess(&self, env: u8) -> u32
        ensures excess { result ≡ (world self.now).book.excess env }
        ensures most { result ≤ excess_limit };

    /// The rows of the ledger.
    fn journal(&self) -> &[Row]
        ensures { result.now ≡ (world self.now).rows };
}
