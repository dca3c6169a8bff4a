//! An environment's frame, with the pages that are guaranteed to it.
ghost use Rattle.std.specs.Prelude.{◌≡◌, ◌≤◌, ◌<◌, ◌+◌, ◌++◌, Some, length, map, [], ◌∷◌, slice_set};
ghost use Rattle.segment_pages.specs.Pages.{page_bytes, vpns};
ghost use Rattle.boot_image.specs.ImageValue.{guaranteed_mappings};
ghost use Rattle.env_frames.specs.Context.{no_handlers};
ghost use Rattle.env_frames.specs.Frame.{IsAbove};
ghost use Rattle.aegis_limits.specs.Limits.{most_mappings, vpn_end};
ghost use Rattle.frame_store.specs.Pages.{with_page, zero_page};
ghost use Rattle.page_book.specs.declared.row.PageRow.TheVariants.{Free, Guaranteed};
ghost use Rattle.page_book.specs.Rows.{first_free, free_pages, row_in};
ghost use Rattle.run_model.specs.Boot.{open_page, body_page, kept_of};
ghost use Rattle.world_model.specs.Item.{boot_cpu as boot_registers};
ghost use Rattle.board_model.specs.Loading.{AreGiven, HasPages, with_mapped, zeros_from};
ghost use Rattle.board_model.specs.Showing.{pages_seen};
ghost use Rattle.board_model.specs.Sound.{AreGuaranteed};

use aegis_limits::STACK_END;
use boot_image::Program;
use elf_static::Elf;
use env_frames::Env;
use frame_store::Frames;
use mips_exec::Cpu;
use page_book::Pages;
use segment_pages::{fill_page, is_writable, next_page};

/// What the stack pointer is at boot, and its register.
const STACK_TOP: u32 = 0x7ffe_fff0;

const STACK_POINTER: u8 = 29;

/// The registers at boot: all are 0 but the stack pointer, and the machine stands at the entry.
fn boot_cpu(entry: u32) -> Cpu
    ensures { result ≡ boot_registers entry }
{
    let mut cpu = Cpu::blank();
    cpu.set_reg(STACK_POINTER, STACK_TOP);
    cpu.pc = entry;
    cpu.next = entry.wrapping_add(4);
    cpu
}

/// Guarantees the lowest free page to an environment, and answers its number.
fn keep_page(pages: &mut Pages, number: u8) -> u32
    requires { 0 < free_pages pages.old }
    ensures lowest { first_free pages.old ≡ Some result }
    ensures there { result < length pages.old }
    ensures was_free { row_in pages.old result ≡ Free }
    ensures after { pages.new ≡ slice_set pages.old result (Guaranteed number) }
    ensures left { free_pages pages.old ≡ free_pages pages.new + 1 }
{
    pages.keep(number).unwrap()
}

/// Makes a page of physical memory what a program has in the page of this VPN.
fn fill_frame(frames: &mut Frames, page: u32, program: &Elf<'_>, vpn: u32)
    requires there { page < length frames.old }
    requires within { vpn < vpn_end }
    ensures { frames.new ≡ with_page frames.old page (page_bytes program.now vpn) }
{
    fill_page(
        program,
        vpn,
        frames.page_mut(page).first_chunk_mut().unwrap(),
    );
}

/// Gives an environment, which has this number, the lowest free page at a VPN above all that it sees:
/// the page of a program's body at this VPN.
fn give_page(
    frames: &mut Frames,
    pages: &mut Pages,
    number: u8,
    env: &mut Env,
    vpn: u32,
    body: &Elf<'_>,
)
    requires guaranteed { AreGuaranteed pages.old number env.old.mappings }
    requires same { HasPages frames.old pages.old }
    requires free { 0 < free_pages pages.old }
    requires count { length env.old.mappings < most_mappings }
    requires above { IsAbove env.old.mappings vpn }
    requires within { vpn < vpn_end }
    ensures guaranteed { AreGuaranteed pages.new number env.new.mappings }
    ensures given { AreGiven number 1 pages.old pages.new frames.old frames.new }
    ensures mapped { env.new.mappings ≡ with_mapped number pages.old (body_page body.now vpn ∷ []) env.old.mappings }
    ensures seen { pages_seen frames.new env.new.mappings ≡ pages_seen frames.old env.old.mappings ++ body_page body.now vpn ∷ [] }
    ensures above { IsAbove env.new.mappings (vpn + 1) }
    ensures count { length env.new.mappings ≡ length env.old.mappings + 1 }
    ensures rest { env.new ≡ record env.old { mappings = env.new.mappings } }
{
    let page = keep_page(pages, number);
    fill_frame(frames, page, body, vpn);
    env.guarantee(vpn, page, is_writable(body, vpn));
}

/// Gives an environment, which has this number, the lowest free page at a VPN above all that it sees:
/// a page of zeros that it may store to.
fn give_zero_page(frames: &mut Frames, pages: &mut Pages, number: u8, env: &mut Env, vpn: u32)
    requires guaranteed { AreGuaranteed pages.old number env.old.mappings }
    requires same { HasPages frames.old pages.old }
    requires free { 0 < free_pages pages.old }
    requires count { length env.old.mappings < most_mappings }
    requires above { IsAbove env.old.mappings vpn }
    ensures guaranteed { AreGuaranteed pages.new number env.new.mappings }
    ensures given { AreGiven number 1 pages.old pages.new frames.old frames.new }
    ensures mapped { env.new.mappings ≡ with_mapped number pages.old (open_page vpn zero_page ∷ []) env.old.mappings }
    ensures seen { pages_seen frames.new env.new.mappings ≡ pages_seen frames.old env.old.mappings ++ open_page vpn zero_page ∷ [] }
    ensures above { IsAbove env.new.mappings (vpn + 1) }
    ensures count { length env.new.mappings ≡ length env.old.mappings + 1 }
    ensures rest { env.new ≡ record env.old { mappings = env.new.mappings } }
{
    let page = keep_page(pages, number);
    frames.zero(page);
    env.guarantee(vpn, page, true);
}

/// Gives an environment, which has this number, the pages of a program's body, by rising VPN.
fn give_body(frames: &mut Frames, pages: &mut Pages, number: u8, env: &mut Env, body: &Elf<'_>)
    requires guaranteed { AreGuaranteed pages.old number env.old.mappings }
    requires same { HasPages frames.old pages.old }
    requires free { length (vpns body.now) ≤ free_pages pages.old }
    requires count { length env.old.mappings + length (vpns body.now) ≤ most_mappings }
    requires above { IsAbove env.old.mappings 2 }
    ensures guaranteed { AreGuaranteed pages.new number env.new.mappings }
    ensures given { AreGiven number (length (vpns body.now)) pages.old pages.new frames.old frames.new }
    ensures mapped { env.new.mappings ≡ with_mapped number pages.old (map (body_page body.now) (vpns body.now)) env.old.mappings }
    ensures seen { pages_seen frames.new env.new.mappings ≡ pages_seen frames.old env.old.mappings ++ map (body_page body.now) (vpns body.now) }
    ensures above { IsAbove env.new.mappings 0x7FF00 }
    ensures count { length env.new.mappings ≡ length env.old.mappings + length (vpns body.now) }
    ensures rest { env.new ≡ record env.old { mappings = env.new.mappings } }
{
    let mut from = 0;
    while let Some(vpn) = next_page(body, from) {
        give_page(frames, pages, number, env, vpn, body);
        from = vpn + 1;
    }
}

/// Gives an environment, which has this number, so many pages of zeros, from a VPN on.
fn give_zeros(
    frames: &mut Frames,
    pages: &mut Pages,
    number: u8,
    env: &mut Env,
    vpn: u32,
    zeros: u32,
)
    requires guaranteed { AreGuaranteed pages.old number env.old.mappings }
    requires same { HasPages frames.old pages.old }
    requires free { zeros ≤ free_pages pages.old }
    requires count { length env.old.mappings + zeros ≤ most_mappings }
    requires above { IsAbove env.old.mappings vpn }
    requires numbers { vpn + zeros ≤ vpn_end }
    ensures guaranteed { AreGuaranteed pages.new number env.new.mappings }
    ensures given { AreGiven number zeros pages.old pages.new frames.old frames.new }
    ensures mapped { env.new.mappings ≡ with_mapped number pages.old (zeros_from vpn zeros) env.old.mappings }
    ensures seen { pages_seen frames.new env.new.mappings ≡ pages_seen frames.old env.old.mappings ++ zeros_from vpn zeros }
    ensures count { length env.new.mappings ≡ length env.old.mappings + zeros }
    ensures rest { env.new ≡ record env.old { mappings = env.new.mappings } }
{
    for i in 0..zeros {
        give_zero_page(frames, pages, number, env, vpn + i);
    }
}

/// The frame of an environment, which has this number, at its program's entry. Its context page is the lowest free
/// page.
fn entry_frame(frames: &mut Frames, pages: &mut Pages, number: u8, program: &Program<'_>) -> Env
    requires same { HasPages frames.old pages.old }
    requires free { 0 < free_pages pages.old }
    ensures cpu { result.cpu ≡ boot_registers program.now.body.entry }
    ensures handlers { result.handlers ≡ no_handlers }
    ensures mask { result.mask ≡ program.now.accept }
    ensures mapped { result.mappings ≡ with_mapped number pages.old (open_page 1 zero_page ∷ []) [] }
    ensures seen { pages_seen frames.new result.mappings ≡ open_page 1 zero_page ∷ [] }
    ensures guaranteed { AreGuaranteed pages.new number result.mappings }
    ensures given { AreGiven number 1 pages.old pages.new frames.old frames.new }
    ensures above { IsAbove result.mappings 2 }
    ensures count { length result.mappings ≡ 1 }
{
    let page = keep_page(pages, number);
    frames.zero(page);
    Env::new(boot_cpu(program.body.entry), page, program.accept)
}

/// The frame of a program's environment, which has this number and to which its pages are given: the context page,
/// those of its body and those of its stack.
pub fn load(frames: &mut Frames, pages: &mut Pages, number: u8, program: &Program<'_>) -> Env
    requires same { HasPages frames.old pages.old }
    requires free { guaranteed_mappings program.now ≤ free_pages pages.old }
    ensures cpu { result.cpu ≡ boot_registers program.now.body.entry }
    ensures handlers { result.handlers ≡ no_handlers }
    ensures mask { result.mask ≡ program.now.accept }
    ensures mapped { result.mappings ≡ with_mapped number pages.old (kept_of program.now) [] }
    ensures seen { pages_seen frames.new result.mappings ≡ kept_of program.now }
    ensures guaranteed { AreGuaranteed pages.new number result.mappings }
    ensures given { AreGiven number (guaranteed_mappings program.now) pages.old pages.new frames.old frames.new }
{
    let stack = STACK_END - program.stack;
    let mut env = entry_frame(frames, pages, number, program);
    give_body(frames, pages, number, &mut env, &program.body);
    give_zeros(frames, pages, number, &mut env, stack, program.stack);
    env
}
