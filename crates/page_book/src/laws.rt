//! The laws of free pages.
ghost use Rattle.std.specs.Prelude.{◌≡◌, ◌↔◌, ℕ, IsNone};
ghost use Rattle.page_book.specs.declared.row.PageRow.{PageRow};
ghost use Rattle.page_book.specs.Rows.{IsLowestFree, lowest_free, free_below};

/// The lowest free page of those below a count is free, and none below it is; there is none exactly where no page
/// below the count is free.
pub fn law_lowest_free()
    ensures { (rows : ℕ → PageRow) (count : ℕ) → IsLowestFree rows count (lowest_free rows count) }
{}

/// No page is the lowest free one exactly where the count of free pages is 0.
pub fn law_none_free()
    ensures { (rows : ℕ → PageRow) (count : ℕ) → IsNone (lowest_free rows count) ↔ (free_below rows count ≡ 0) }
{}
