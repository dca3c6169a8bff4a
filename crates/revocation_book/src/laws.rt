//! What holds of what is taken at a time.
ghost use Rattle.revocation_book.specs.Richest.{RichestHasMost};
ghost use Rattle.revocation_book.specs.Takings.{TakingsAreFew, TakingsAreTakable};

/// Each page that is taken at a time may be taken in its turn, once those before it are: the deadline of its owner has
/// come, it isn't a backup, and the backup that gets a copy is the one that was loaded first.
pub fn law_takable()
    ensures { TakingsAreTakable }
{}

/// No more pages are taken than there are pages that aren't free.
pub fn law_few_takings()
    ensures { TakingsAreFew }
{}

/// The richest environment but for one has the most pages that may be taken, of all but that one, and at least one;
/// those below it have fewer. There is none exactly where no other environment has such a page.
pub fn law_richest()
    ensures { RichestHasMost }
{}
