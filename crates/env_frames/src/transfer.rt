//! The kinds of transfer, by which one environment calls another.
ghost use Rattle.std.specs.Prelude.{◌≡◌};
ghost use Rattle.env_frames.specs.Transfer.{entry_context, hands_slot, transfer_number, transfer_numbered};

use crate::context::Context;

/// What a transfer hands on from its caller to its target (`docs/KERNEL.md`, "Transfers").
#[derive(Clone, Copy)]
pub enum TransferKind {
    /// The rest of the slice.
    Asynchronous,
    /// The rest of the slice, and the slot with its later slices.
    Synchronous,
}

impl TransferKind {
    /// The kind that a kernel call names by this number: 0 is asynchronous and 1 synchronous. Every other
    /// number names none.
    pub fn numbered(number: u32) -> Option<TransferKind>
        ensures { result ≡ transfer_numbered number }
    {
        match number {
            0 => Some(TransferKind::Asynchronous),
            1 => Some(TransferKind::Synchronous),
            _ => None,
        }
    }

    /// Its number, 0 or 1.
    pub fn number(self) -> u32
        ensures { result ≡ transfer_number self }
    {
        match self {
            TransferKind::Asynchronous => 0,
            TransferKind::Synchronous => 1,
        }
    }

    /// The context whose handler is the entry for this kind.
    pub fn context(self) -> Context
        ensures { result ≡ entry_context self }
    {
        match self {
            TransferKind::Asynchronous => Context::Asynchronous,
            TransferKind::Synchronous => Context::Synchronous,
        }
    }

    /// Whether it hands on the slot with its later slices.
    pub fn hands_slot(self) -> bool
        ensures { result ≡ hands_slot self }
    {
        match self {
            TransferKind::Asynchronous => false,
            TransferKind::Synchronous => true,
        }
    }
}
