//! Where an address leads in physical memory, by the rows of the TLB and the mode.
ghost use Rattle.std.specs.Prelude.{◌≡◌, ◌<◌, IfOk, length};
ghost use Rattle.r3k_machine.specs.Translation.{page_by_row, page_by_mode, reached_page};

use aegis_limits::PAGE_BYTES;
use frame_store::Frames;
use mips_exec::{AccessKind, Exc, ExcCode, USER_END};
use r3k_cp0::Cp0;
use r3k_tlb::{Row, Tlb};

/// The kernel's addresses from the users' end to this one go by no row.
const DIRECT_END: u32 = 0xc000_0000;

/// They are physical modulo this.
const DIRECT_SIZE: u32 = 0x2000_0000;

/// The page of an access by its row. V is asked before D, and N isn't asked.
#[inline(always)]
fn page_by_row(kind: AccessKind, va: u32, row: Option<Row>) -> Result<u32, Exc>
    ensures { result ≡ page_by_row kind va row }
{
    match row {
        Some(row) if row.is_valid() => {
            if kind.is_store() && !row.is_dirty() {
                Err(Exc::plain(ExcCode::Mod).at(va))
            } else {
                Ok(row.page())
            }
        }
        _ => Err(Exc::plain(kind.miss()).at(va)),
    }
}

/// The page of an access.
#[inline(always)]
fn page_by_mode(tlb: &Tlb, cp0: &Cp0, kind: AccessKind, va: u32) -> Result<u32, Exc>
    ensures { result ≡ page_by_mode cp0.now tlb.now kind va }
{
    if USER_END <= va && cp0.is_user() {
        Err(Exc::plain(kind.address_error()).at(va))
    } else if USER_END <= va && va < DIRECT_END {
        Ok(va % DIRECT_SIZE / PAGE_BYTES)
    } else {
        page_by_row(kind, va, tlb.fitting(va / PAGE_BYTES, cp0.pid()))
    }
}

/// The page of physical memory that an access reaches, or what it raises. All of it is inlined: a loop of steps that asks
/// only whether there is a page then makes no exception.
#[inline(always)]
pub(crate) fn reached_page(
    frames: &Frames,
    tlb: &Tlb,
    cp0: &Cp0,
    kind: AccessKind,
    va: u32,
) -> Result<u32, Exc>
    ensures page { result ≡ reached_page cp0.now tlb.now (length frames.now) kind va }
    ensures there { IfOk result (λ page. page < length frames.now) }
{
    let page = page_by_mode(tlb, cp0, kind, va)?;
    if page < frames.pages() {
        Ok(page)
    } else {
        Err(Exc::plain(kind.bus_error()).at(va))
    }
}
