//! What a user can't do.
ghost use Rattle.machine_laws.specs.Confined.{UsersAreConfined};
ghost use Rattle.machine_laws.specs.Entered.{ExceptionsEnterKernel};
ghost use Rattle.machine_laws.specs.Seen.{UsersSeeByRows};
ghost use Rattle.machine_laws.specs.Ticks.{UsersEnterByVectors};

/// A step in user mode changes no row of the TLB and no register of coprocessor 0, and no page of physical memory but
/// one to which a valid and dirty row of the process leads.
pub fn law_confined()
    ensures { UsersAreConfined }
{}

/// What a step in user mode does to the machine, and how it ends, depends on no page of physical memory but those to
/// which a valid row of the process leads.
pub fn law_seen()
    ensures { UsersSeeByRows }
{}

/// An exception is entered in kernel mode at one of two vectors. The modes before it are pushed, EPC has where the user
/// goes on, and its other registers and all rows stay.
pub fn law_entered()
    ensures { ExceptionsEnterKernel }
{}

/// So a tick of the bare board in user mode is an instruction that is confined so, or enters the kernel at one of the
/// two vectors; and no user halts the board.
pub fn law_users_ticks()
    ensures { UsersEnterByVectors }
{}
