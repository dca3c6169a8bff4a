//! The copy of a page that is taken.
ghost use Rattle.std.specs.Prelude.{◌≡◌, ◌<◌, length, IfSome};
ghost use Rattle.board_model.specs.Doing.{frames_after_copy};

use frame_store::Frames;

/// Copies a page to a backup, if there is one.
pub fn copy_to_backup(frames: &mut Frames, page: u32, backup: Option<u32>)
    requires page { page < length frames.old }
    requires backup { IfSome backup (λ n. n < length frames.old) }
    ensures frames { frames.new ≡ frames_after_copy page backup frames.old }
    ensures size { length frames.new ≡ length frames.old }
{
    if let Some(backup) = backup {
        // Reads both pages, and with it that they have their size.
        let _page = frames.page(page);
        let _backup = frames.page(backup);
        frames.copy_page(page, backup);
    }
}
