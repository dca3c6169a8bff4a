//! Marks of pages, which say where rows may stand that lead to them.
ghost use Rattle.std.specs.Prelude.{◌≡◌, ◌<◌, IfOk, replicate, slice_set};
ghost use Rattle.aegis_limits.specs.Limits.{most_pages};
ghost use Rattle.bind_book.specs.declared.mark.Mark.TheVariants.{Nowhere};
ghost use Rattle.bind_book.specs.Marks.{mark_of, marked_too};

use crate::mark::Mark;
use aegis_limits::{MOST_PAGES, OutOfMemory};
use std::alloc::Global;
use std::marker::Model;

/// A mark for each page.
#[derive(Drop)]
pub(crate) struct PageMarks {
    marks: Vec<Mark>,
}

impl Model for PageMarks {
    ghost use Rattle.std.specs.Prelude.{◌≡◌, List, length};
    ghost use Rattle.aegis_limits.specs.Limits.{most_pages};
    ghost use Rattle.bind_book.specs.declared.mark.Mark.{Mark};

    ghost Value = { List Mark };

    ghost view = { λ m. m.marks.items };

    ghost invariant = { λ m. length m.marks.items ≡ most_pages };
}

impl PageMarks {
    /// No row leads to any page. An `Err` says that there is no memory for the marks.
    pub fn new(alloc: Global) -> Result<PageMarks, OutOfMemory>
        ensures { IfOk result (λ m. m ≡ replicate most_pages Nowhere) }
    {
        let marks = vec![in alloc; Mark::Nowhere; MOST_PAGES as usize]?;
        Ok(PageMarks { marks })
    }

    /// The page's mark. No row leads to one that isn't there.
    pub fn of(&self, page: u32) -> Mark
        ensures { result ≡ mark_of self.now page }
    {
        self.marks
            .get(page as usize)
            .copied()
            .unwrap_or(Mark::Nowhere)
    }

    /// The row at this place may lead to the page, below `MOST_PAGES`, from now on too.
    pub fn mark(&mut self, page: u32, place: u32)
        requires { page < most_pages }
        ensures marks { self.new ≡ slice_set self.old page (marked_too (mark_of self.old page) place) }
        ensures mark { mark_of self.new page ≡ marked_too (mark_of self.old page) place }
    {
        let mark = &mut self.marks[page as usize];
        match *mark {
            Mark::Nowhere => *mark = Mark::At(place),
            Mark::At(at) => {
                if at != place {
                    *mark = Mark::Anywhere;
                }
            }
            Mark::Anywhere => {}
        }
    }

    /// No row leads to the page, if there is one, from now on.
    pub fn unmark(&mut self, page: u32)
        ensures { self.new ≡ slice_set self.old page Nowhere }
    {
        if let Some(mark) = self.marks.get_mut(page as usize) {
            *mark = Mark::Nowhere;
        }
    }
}
