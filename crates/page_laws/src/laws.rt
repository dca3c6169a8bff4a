//! The laws of what environments see, and through what they store.
ghost use Rattle.page_laws.specs.Laws.{AllocatorSees, BinderSees, FreerLoses, MournersLose, OthersDont, OthersLose, ReadersSee, RecapperKeeps, UnbinderLoses, WriterSees};
ghost use Rattle.page_laws.specs.Through.{StoresGoThrough};

/// Each change of the books, and each store, changes what environments see as the model's items say: an allocation, a
/// free, other words for a page, a bind, an unbind, a death and a store, for who does it and for others.
pub fn law_sights()
    ensures allocator { AllocatorSees }
    ensures others { OthersDont }
    ensures freer { FreerLoses }
    ensures recapper { RecapperKeeps }
    ensures losers { OthersLose }
    ensures binder { BinderSees }
    ensures unbinder { UnbinderLoses }
    ensures mourners { MournersLose }
    ensures writer { WriterSees }
    ensures readers { ReadersSee }
{}

/// A store that an environment's next step makes to a page that isn't guaranteed to it goes through a writable binding of its
/// own.
pub fn law_through()
    ensures { StoresGoThrough }
{}
