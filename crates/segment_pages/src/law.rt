//! The law of the smallest program.
ghost use Rattle.std.specs.Prelude.{◌≡◌, [], ◌∷◌};
ghost use Rattle.elf_static.specs.Smallest.{smallest};
ghost use Rattle.segment_pages.specs.Pages.{vpns};

/// The smallest program has one page, the first that a program may have.
pub fn law_smallest()
    ensures { vpns smallest ≡ 2 ∷ [] }
{}
