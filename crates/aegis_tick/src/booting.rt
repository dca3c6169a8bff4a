//! The boot of an image: a board with all of its environments.
ghost use Rattle.std.specs.Prelude.{◌≡◌, ◌≤◌, IfOk, fold, length, sum_by};
ghost use Rattle.board_model.specs.Showing.{world_of};
ghost use Rattle.board_model.specs.Ticks.{IsFresh};
ghost use Rattle.boot_image.specs.ImageValue.{guaranteed_mappings};
ghost use Rattle.page_book.specs.Rows.{free_pages};
ghost use Rattle.run_model.specs.Boot.{with_program, boot_world};
ghost use Rattle.run_model.specs.Excess.{IsAccounted};
ghost use Rattle.tlb_model.specs.Cache.{boot_cache};

use aegis_calls::Board;
use aegis_limits::{OutOfMemory, law_versions_are_within};
use boot_image::{Image, Program, law_accepted_is_within};
use run_model::law_boot_accounts;
use std::alloc::Global;

/// Makes an environment for each program, in their order, on a board that has room for just so many.
fn add_all(board: &mut Board, programs: &[Program<'_>])
    requires room { board.old.roster.spare ≡ length programs.now }
    requires pages { sum_by guaranteed_mappings programs.now ≤ free_pages board.old.pages }
    ensures world { world_of board.new ≡ fold with_program (world_of board.old) programs.now }
    ensures whole { board.new.roster.spare ≡ 0 }
    ensures tlb { board.new.tlb ≡ board.old.tlb }
    ensures numbers { board.new.claims.next ≡ board.old.claims.next }
    ensures pages { length board.new.frames ≡ length board.old.frames }
{
    for program in programs {
        board.add(program);
    }
}

/// The board that an accepted image boots, with all of its environments (`docs/KERNEL.md`, "Boot"). Nobody owes
/// anything.
pub fn boot(alloc: Global, image: &Image<'_>) -> Result<Board, OutOfMemory>
    ensures world { IfOk result (λ b. world_of b ≡ boot_world image.now) }
    ensures balance { IfOk result (λ b. IsAccounted (world_of b)) }
    ensures fresh { IfOk result IsFresh }
    ensures tlb { IfOk result (λ b. b.tlb ≡ boot_cache) }
    ensures pages { IfOk result (λ b. length b.frames ≡ image.now.pages) }
{
    law_accepted_is_within();
    law_versions_are_within();
    let slots = image.slots.as_slice();
    let programs = image.programs.as_slice();
    let envs = programs.len() as u8;
    let mut board = Board::build(
        alloc,
        image.version,
        image.pages,
        image.quantum,
        slots,
        envs,
    )?;
    add_all(&mut board, programs);
    law_boot_accounts();
    Ok(board)
}
