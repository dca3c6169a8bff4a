//! The rows of the ledger.
/// One act of the kernel. `time` is the tick in which it happened, `slot` a slot's number, `env`,
/// `from`, `to`, `owner` and `holder` numbers of environments.
#[derive(Clone, Copy)]
pub enum Row {
    /// The slot has this owner and this holder now, or is empty where both are none.
    Own {
        time: u32,
        slot: u32,
        owner: Option<u8>,
        holder: Option<u8>,
    },
    /// The slot's turn began, and its holder runs.
    Run {
        time: u32,
        slot: u32,
        env: u8,
    },
    /// The slot's turn was forfeited, and the excess of its holder fell by one.
    Pay {
        time: u32,
        slot: u32,
        env: u8,
    },
    /// The rest of the slice went from one environment to another by a directed yield.
    Give {
        time: u32,
        slot: u32,
        from: u8,
        to: u8,
    },
    /// An asynchronous protected transfer of control.
    Async {
        time: u32,
        slot: u32,
        from: u8,
        to: u8,
    },
    /// A synchronous protected transfer of control, which hands the slot on.
    Sync {
        time: u32,
        slot: u32,
        from: u8,
        to: u8,
    },
    /// The slice ended, and the environment's end handler was started with a quantum of grace.
    End {
        time: u32,
        slot: u32,
        env: u8,
    },
    /// A quantum of grace ran out, and the environment's excess rose to this.
    Over {
        time: u32,
        slot: u32,
        env: u8,
        excess: u32,
    },
    /// The environment was stopped at the end of its slice, or gave up the rest of it.
    Stop {
        time: u32,
        slot: u32,
        env: u8,
    },
    /// The environment died.
    Dead {
        time: u32,
        slot: u32,
        env: u8,
    },
    /// The environment was asked to give pages back: so many are outstanding, until the deadline's
    /// tick.
    Asked {
        time: u32,
        env: u8,
        outstanding: u32,
        deadline: u32,
    },
    /// The page was taken from the environment by force, and copied to the backup page if one is
    /// named.
    Take {
        time: u32,
        env: u8,
        page: u32,
        backup: Option<u32>,
    },
    /// A packet of this length was claimed by nobody and dropped.
    Unclaimed {
        time: u32,
        length: u32,
    },
}

/// How a run of the board ended.
#[derive(Clone, Copy)]
pub enum RunEnd {
    /// The time reached the limit.
    Limit,
    /// No slot had a holder any more.
    Idle,
}
