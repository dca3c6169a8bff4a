//! What the kernel does about a miss of the TLB.
ghost use Rattle.std.specs.Prelude.{◌≡◌, ◌<◌, IfSome, is_some};
ghost use Rattle.std.specs.Option.{option_map};
ghost use Rattle.aegis_limits.specs.Limits.{environment_numbers};
ghost use Rattle.env_frames.specs.Frame.{mapping_at};
ghost use Rattle.guest_memory.specs.Space.{lookup};
ghost use Rattle.r3k_tlb.specs.Row.{page_numbers};
ghost use Rattle.r3k_tlb.specs.Rows.{row_count};
ghost use Rattle.board_model.specs.Refilling.{fills_after_miss, fills_after_refill, is_kept_by, rows_after_miss};

use aegis_limits::ENVIRONMENT_NUMBERS;
use bind_book::Binding;
use env_frames::{Env, Mapping};
use guest_memory::Space;
use r3k_tlb::{Tlb, hi_word, lo_word};
use tlb_model::Fills;

/// What a miss is answered from: a mapping, and whether it is a guaranteed one.
#[derive(Clone, Copy)]
struct Source {
    mapping: Mapping,
    is_guaranteed: bool,
}

/// The guaranteed mapping of a VPN, if there is one: at its distance from the first, where mappings stand one behind
/// another, without a search.
#[inline(always)]
fn guaranteed(env: &Env, vpn: u32) -> Option<Mapping>
    ensures { result ≡ mapping_at env.now.mappings vpn }
{
    let mappings = env.mappings();
    if mappings.is_empty() {
        return None;
    }
    let distance = vpn.wrapping_sub(mappings[0].vpn) as usize;
    if distance < mappings.len() && mappings[distance].vpn == vpn {
        return Some(mappings[distance]);
    }
    env.guaranteed(vpn)
}

/// What a miss at a VPN is answered from: its guaranteed mapping, else its binding.
#[tactic(auto, unfolding(guest_memory::specs::Space::lookup))]
#[inline(always)]
fn source_of(space: &Space<'_>, vpn: u32) -> Option<Source>
    ensures mapping { option_map (λ s. s.mapping) result ≡ lookup space.now vpn }
    ensures kept { IfSome result (λ s. s.is_guaranteed ≡ is_kept_by space.now.mappings vpn) }
{
    if let Some(mapping) = guaranteed(space.env, vpn) {
        return Some(Source {
            mapping,
            is_guaranteed: true,
        });
    }
    let Binding { page, writable, .. } = space.bindings.find(space.number, vpn)?;
    Some(Source {
        mapping: Mapping {
            vpn,
            page,
            writable,
        },
        is_guaranteed: false,
    })
}

/// Refills a row by the mapping of a VPN at which an environment had a miss, and counts it. The result is whether the VPN
/// has a mapping; where it has none, nothing changes.
#[inline(always)]
pub fn refill(
    tlb: &mut Tlb,
    fills: &mut [Fills; ENVIRONMENT_NUMBERS],
    space: &Space<'_>,
    row: u8,
    vpn: u32,
) -> bool
    requires row { row < row_count }
    requires env { space.now.number < environment_numbers }
    requires words { IfSome (lookup space.now vpn) (λ m. (m.vpn < page_numbers) × (m.page < page_numbers)) }
    ensures refilled { result ≡ is_some (lookup space.now vpn) }
    ensures rows { tlb.new ≡ rows_after_miss row space.now.number (lookup space.now vpn) tlb.old }
    ensures fills { fills.new ≡ fills_after_refill (is_kept_by space.now.mappings vpn) space.now.number (lookup space.now vpn) fills.old }
{
    let env = space.number;
    let Some(source) = source_of(space, vpn) else {
        return false;
    };
    let mapping = source.mapping;
    fills[usize::from(env)].count_refill(source.is_guaranteed);
    tlb.write(
        row,
        hi_word(mapping.vpn, env),
        lo_word(mapping.page, mapping.writable),
    );
    true
}

/// Refills the row that Random named by the mapping of a VPN at which an environment had a miss, and counts it; where the
/// VPN has none, the miss is counted as forwarded. The result is whether a row was refilled.
#[cold]
#[inline(never)]
pub fn answer_miss(
    tlb: &mut Tlb,
    fills: &mut [Fills; ENVIRONMENT_NUMBERS],
    space: &Space<'_>,
    random: u8,
    vpn: u32,
) -> bool
    requires random { random < row_count }
    requires env { space.now.number < environment_numbers }
    requires words { IfSome (lookup space.now vpn) (λ m. (m.vpn < page_numbers) × (m.page < page_numbers)) }
    ensures refilled { result ≡ is_some (lookup space.now vpn) }
    ensures rows { tlb.new ≡ rows_after_miss random space.now.number (lookup space.now vpn) tlb.old }
    ensures fills { fills.new ≡ fills_after_miss (is_kept_by space.now.mappings vpn) space.now.number (lookup space.now vpn) fills.old }
{
    let is_refilled = refill(tlb, fills, space, random, vpn);
    if !is_refilled {
        fills[usize::from(space.number)].count_forward();
    }
    is_refilled
}
