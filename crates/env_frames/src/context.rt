//! The contexts in which the kernel continues an environment at an address of its own, and its context page.
ghost use Rattle.std.specs.Prelude.{◌≡◌};
ghost use Rattle.env_frames.specs.Context.{context_numbered, handler_of, no_handlers, with_handler};

/// The VPN at which each environment sees its context page.
pub(crate) const CONTEXT_PAGE: u32 = 1;

/// Where the exception area begins in the context page (`docs/KERNEL.md`, "The context page").
pub(crate) const EXCEPTION_AREA: u32 = 0x000;

/// How many bytes the exception area has: six words.
pub(crate) const EXCEPTION_AREA_SIZE: usize = 24;

/// Where the start area begins in the context page.
pub(crate) const START_AREA: u32 = 0x040;

/// How many bytes the start area has: two words.
pub(crate) const START_AREA_SIZE: usize = 8;

/// Where the end area begins in the context page.
pub(crate) const END_AREA: u32 = 0x050;

/// How many bytes the end area has: three words.
pub(crate) const END_AREA_SIZE: usize = 12;

/// Where the entry area begins in the context page.
pub(crate) const ENTRY_AREA: u32 = 0x080;

/// How many bytes `$1` to `$31` have, which stand first in the entry area.
pub(crate) const GENERAL_SIZE: usize = 124;

/// How many bytes the entry area has: 36 words.
pub(crate) const ENTRY_AREA_SIZE: usize = 144;

/// Why the kernel continues an environment at an address that the environment chose.
#[derive(Clone, Copy)]
pub enum Context {
    /// It raised an exception.
    Exception,
    /// Its slice starts.
    Start,
    /// Its slice ends.
    End,
    /// Another calls it for the rest of a slice.
    Asynchronous,
    /// Another calls it for a slot.
    Synchronous,
}

impl Context {
    /// The context that a kernel call names by this number (`docs/KERNEL.md`): 0 to 4 in the order of
    /// the variants. Every other number names none.
    pub fn numbered(kind: u32) -> Option<Context>
        ensures { result ≡ context_numbered kind }
    {
        match kind {
            0 => Some(Context::Exception),
            1 => Some(Context::Start),
            2 => Some(Context::End),
            3 => Some(Context::Asynchronous),
            4 => Some(Context::Synchronous),
            _ => None,
        }
    }
}

/// The addresses at which an environment handles each context; 0 is no handler.
#[derive(Clone, Copy)]
pub struct Handlers {
    /// Where it goes on after an exception of its own.
    pub exception: u32,
    /// Where a slice of its own starts.
    pub start: u32,
    /// Where it is told that its slice ends.
    pub end: u32,
    /// Where another's call for the rest of a slice enters it.
    pub asynchronous: u32,
    /// Where another's call for a slot enters it.
    pub synchronous: u32,
}

impl Handlers {
    /// No handler of any kind.
    pub const fn none() -> Handlers
        ensures { result ≡ no_handlers }
    {
        Handlers {
            exception: 0,
            start: 0,
            end: 0,
            asynchronous: 0,
            synchronous: 0,
        }
    }

    /// The address of a context's handler; 0 is none.
    pub fn of(&self, context: Context) -> u32
        ensures { result ≡ handler_of self.now context }
    {
        match context {
            Context::Exception => self.exception,
            Context::Start => self.start,
            Context::End => self.end,
            Context::Asynchronous => self.asynchronous,
            Context::Synchronous => self.synchronous,
        }
    }

    /// The same handlers but for one context, whose handler is at this address; 0 is none.
    pub fn with(self, context: Context, address: u32) -> Handlers
        ensures { result ≡ with_handler self context address }
    {
        match context {
            Context::Exception => Handlers {
                exception: address,
                ..self
            },
            Context::Start => Handlers {
                start: address,
                ..self
            },
            Context::End => Handlers {
                end: address,
                ..self
            },
            Context::Asynchronous => Handlers {
                asynchronous: address,
                ..self
            },
            Context::Synchronous => Handlers {
                synchronous: address,
                ..self
            },
        }
    }
}
