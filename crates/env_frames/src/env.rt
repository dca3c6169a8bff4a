//! An environment's frame.
ghost use Rattle.std.specs.Prelude.{◌≡◌, ◌≢◌, ◌<◌, ◌≤◌, ◌+◌, ◌==◌, [], ◌∷◌, ◌++◌, length, true, not, if◌then◌else◌, IfSome};
ghost use Rattle.aegis_limits.specs.Limits.{most_mappings, page_size};
ghost use Rattle.mips_exec.specs.Cpu.{rested};
ghost use Rattle.env_frames.specs.Context.{end_area, end_bytes, handler_of, no_handlers, raised_cpu, resumed_cpu, start_area, start_bytes, started_cpu, with_handler};
ghost use Rattle.env_frames.specs.Post.{asked_in, counted_in, signalled_in, taken_in};
ghost use Rattle.env_frames.specs.Transfer.{carried, entered_cpu, entry_area, entry_bytes, entry_context};
ghost use Rattle.env_frames.specs.Frame.{IsAbove, IsRising, gone_env, left_in, mapping_at, numbers, page_of, raised_in};

use crate::context::{
    CONTEXT_PAGE, Context, END_AREA, ENTRY_AREA, EXCEPTION_AREA, Handlers, START_AREA,
};
use crate::mapping::Mapping;
use crate::post::{MOST_RECORDS, PostWord, record_bytes, record_offset};
use crate::search::place_in;
use crate::transfer::TransferKind;
use crate::upcall::{
    end_bytes, enter_raised, enter_resumed, entered, entry_bytes, exception_bytes, start_bytes,
};
use aegis_limits::MOST_MAPPINGS;
use arrayvec::ArrayVec;
use frame_store::Frames;
use mips_exec::{Cpu, Exc};
use std::marker::Model;

/// What the kernel keeps of an environment: its registers while it doesn't run, the addresses of its
/// handlers, the mask of those whose yields and transfers it accepts, and its guaranteed mappings by
/// rising VPN, at most 256.
#[derive(Drop)]
pub struct Env {
    cpu: Cpu,
    handlers: Handlers,
    mask: u32,
    mappings: ArrayVec<Mapping, MOST_MAPPINGS>,
}

impl Model for Env {
    ghost use Rattle.std.specs.Prelude.{◌≤◌, length};
    ghost use Rattle.env_frames.specs.Frame.{EnvValue, IsRising, numbers};

    ghost Value = { EnvValue };

    ghost view = { λ e. record { cpu = e.cpu; handlers = e.handlers; mask = e.mask; mappings = e.mappings.items } };

    ghost invariant = { λ e. IsRising (numbers e.mappings.items) };
}

impl Env {
    /// An environment with these registers and this mask that handles nothing and sees one page, which
    /// it may store to, at VPN 1: its context page.
    pub fn new(cpu: Cpu, page: u32, accept: u32) -> Env
        ensures { result ≡ record { cpu = cpu; handlers = no_handlers; mask = accept; mappings = record { vpn = 1; page = page; writable = true } ∷ [] } }
    {
        let mut mappings = ArrayVec::new();
        mappings.push(Mapping {
            vpn: CONTEXT_PAGE,
            page,
            writable: true,
        });
        Env {
            cpu,
            handlers: Handlers::none(),
            mask: accept,
            mappings,
        }
    }

    /// Guarantees a mapping, at a VPN above all that are guaranteed.
    pub fn guarantee(&mut self, vpn: u32, page: u32, writable: bool)
        requires room { length self.old.mappings < most_mappings }
        requires above { IsAbove self.old.mappings vpn }
        ensures mapping { self.new ≡ record self.old { mappings = self.old.mappings ++ record { vpn = vpn; page = page; writable = writable } ∷ [] } }
        ensures above { IsAbove self.new.mappings (vpn + 1) }
    {
        self.mappings.push(Mapping {
            vpn,
            page,
            writable,
        });
    }

    /// The guaranteed mapping at a VPN, if there is one.
    pub fn guaranteed(&self, vpn: u32) -> Option<Mapping>
        ensures value { result ≡ mapping_at self.now.mappings vpn }
    {
        let mappings = self.mappings();
        let place = place_in(mappings, vpn)?;
        Some(mappings[place])
    }

    /// The guaranteed mappings by rising VPN, at most 256.
    pub fn mappings(&self) -> &[Mapping]
        ensures value { result.now ≡ self.now.mappings }
        ensures rising { IsRising (numbers self.now.mappings) }
        ensures count { length result.now ≤ most_mappings }
    {
        self.mappings.as_slice()
    }

    /// Keeps the registers as they stand.
    pub fn keep(&mut self, cpu: &Cpu)
        ensures { self.new ≡ record self.old { cpu = cpu.now } }
    {
        self.cpu = *cpu;
    }

    /// The registers as they were kept.
    pub fn kept(&self) -> Cpu
        ensures { result ≡ self.now.cpu }
    {
        self.cpu
    }

    /// The registers with which the environment goes on: at its restart address, out of a delay slot.
    pub fn restore(&self) -> Cpu
        ensures { result ≡ rested self.now.cpu }
    {
        self.cpu.rested()
    }

    /// The address of a context's handler; 0 is none.
    pub fn handler(&self, context: Context) -> u32
        ensures { result ≡ handler_of self.now.handlers context }
    {
        self.handlers.of(context)
    }

    /// Handles a context at an address; 0 is no handler.
    pub fn set_handler(&mut self, context: Context, address: u32)
        ensures { self.new ≡ record self.old { handlers = with_handler self.old.handlers context address } }
    {
        self.handlers = self.handlers.with(context, address);
    }

    /// The mask of those whose yields and transfers the environment accepts.
    pub fn accept(&self) -> u32
        ensures { result ≡ self.now.mask }
    {
        self.mask
    }

    /// Accepts the yields and transfers of those in this mask, and of no others.
    pub fn set_accept(&mut self, mask: u32)
        ensures { self.new ≡ record self.old { mask = mask } }
    {
        self.mask = mask;
    }

    /// The page of physical memory that is the context page, if the environment has one. It is asked for first where it
    /// mostly stands, as only page 0 may come before it.
    fn context_page(&self) -> Option<u32>
        ensures { result ≡ page_of self.now.mappings 1 }
    {
        let first = self.mappings().first()?;
        if first.vpn == CONTEXT_PAGE {
            return Some(first.page);
        }
        self.guaranteed(CONTEXT_PAGE).map(|mapping| mapping.page)
    }

    /// Leaves bytes in an area of the context page, if the environment has one. The area lies within
    /// the page.
    fn leave(&self, frames: &mut Frames, area: u32, bytes: &[u8])
        requires there { IfSome (page_of self.now.mappings 1) (λ page. page < length frames.old) }
        requires within { area + length bytes.now ≤ page_size }
        ensures frames { frames.new ≡ left_in area bytes.now (page_of self.now.mappings 1) frames.old }
        ensures size { length frames.new ≡ length frames.old }
    {
        if let Some(page) = self.context_page() {
            frames.put(page, area, bytes);
        }
    }

    /// Counts a post word of the context page up, if the environment has one. It wraps at 2^32.
    pub fn count(&self, frames: &mut Frames, post: PostWord)
        requires { IfSome (page_of self.now.mappings 1) (λ page. page < length frames.old) }
        ensures frames { frames.new ≡ counted_in post (page_of self.now.mappings 1) frames.old }
        ensures size { length frames.new ≡ length frames.old }
    {
        if let Some(page) = self.context_page() {
            let count = post.value(frames, page);
            post.set(frames, page, count.wrapping_add(1));
        }
    }

    /// Sets the bit of an interrupt line, below 8, in the context page, if the environment has one.
    pub fn signal(&self, frames: &mut Frames, line: u8)
        requires line { line < 8 }
        requires there { IfSome (page_of self.now.mappings 1) (λ page. page < length frames.old) }
        ensures frames { frames.new ≡ signalled_in line (page_of self.now.mappings 1) frames.old }
        ensures size { length frames.new ≡ length frames.old }
    {
        if let Some(page) = self.context_page() {
            let lines = PostWord::Lines.value(frames, page);
            PostWord::Lines.set(frames, page, lines | 1 << line);
        }
    }

    /// Reports in the context page, if the environment has one, how many pages it is asked for, and until which tick.
    pub fn ask(&self, frames: &mut Frames, outstanding: u32, deadline: u32)
        requires { IfSome (page_of self.now.mappings 1) (λ page. page < length frames.old) }
        ensures frames { frames.new ≡ asked_in outstanding deadline (page_of self.now.mappings 1) frames.old }
        ensures size { length frames.new ≡ length frames.old }
    {
        if let Some(page) = self.context_page() {
            PostWord::Outstanding.set(frames, page, outstanding);
            PostWord::Deadline.set(frames, page, deadline);
        }
    }

    /// Records in the context page, if the environment has one, a page that was taken from it and the backup that got a
    /// copy, and counts it. Past 64 records pages are counted alone.
    pub fn record(&self, frames: &mut Frames, taken: u32, backup: Option<u32>)
        requires { IfSome (page_of self.now.mappings 1) (λ page. page < length frames.old) }
        ensures frames { frames.new ≡ taken_in taken backup (page_of self.now.mappings 1) frames.old }
        ensures size { length frames.new ≡ length frames.old }
    {
        if let Some(page) = self.context_page() {
            let number = PostWord::Takings.value(frames, page);
            if number < MOST_RECORDS {
                frames.put(page, record_offset(number), &record_bytes(taken, backup));
            }
            self.count(frames, PostWord::Takings);
        }
    }

    /// Hands an exception to the environment's handler: what it needs to go on later stands in the
    /// context page, and its registers continue at the handler. `false` says that there is no handler,
    /// and then nothing has changed.
    pub fn raise(&self, frames: &mut Frames, cpu: &mut Cpu, exc: &Exc) -> bool
        requires { IfSome (page_of self.now.mappings 1) (λ page. page < length frames.old) }
        ensures answer { result ≡ not (self.now.handlers.exception == 0) }
        ensures frames { frames.new ≡ (if self.now.handlers.exception == 0 then frames.old else raised_in exc.now cpu.old (page_of self.now.mappings 1) frames.old) }
        ensures cpu { cpu.new ≡ (if self.now.handlers.exception == 0 then cpu.old else raised_cpu self.now.handlers.exception exc.now cpu.old) }
        ensures size { length frames.new ≡ length frames.old }
    {
        let handler = self.handlers.exception;
        if handler == 0 {
            return false;
        }
        self.leave(frames, EXCEPTION_AREA, &exception_bytes(cpu, exc));
        enter_raised(cpu, handler, exc);
        true
    }

    /// The registers with which a slice of the environment starts: at its handler of starts, which
    /// finds in the context page what it needs to go on where the kept registers stand; or, without a
    /// handler, at rest where they stand (`docs/KERNEL.md`, "Starts and ends of slices").
    pub fn start(&self, frames: &mut Frames) -> Cpu
        requires { IfSome (page_of self.now.mappings 1) (λ page. page < length frames.old) }
        ensures cpu { result ≡ started_cpu self.now.handlers.start self.now.cpu }
        ensures frames { frames.new ≡ (if self.now.handlers.start == 0 then frames.old else left_in start_area (start_bytes self.now.cpu) (page_of self.now.mappings 1) frames.old) }
        ensures size { length frames.new ≡ length frames.old }
    {
        let handler = self.handlers.start;
        if handler == 0 {
            return self.restore();
        }
        let mut cpu = self.cpu;
        self.leave(frames, START_AREA, &start_bytes(&cpu));
        enter_resumed(&mut cpu, handler);
        cpu
    }

    /// Tells the environment, which handles ends, that its slice ends: its registers continue at the
    /// handler, which finds in the context page what it needs to go on where they stood
    /// (`docs/KERNEL.md`, "Starts and ends of slices").
    pub fn end(&self, frames: &mut Frames, cpu: &mut Cpu)
        requires handled { self.now.handlers.end ≢ 0 }
        requires there { IfSome (page_of self.now.mappings 1) (λ page. page < length frames.old) }
        ensures frames { frames.new ≡ left_in end_area (end_bytes cpu.old) (page_of self.now.mappings 1) frames.old }
        ensures cpu { cpu.new ≡ resumed_cpu self.now.handlers.end cpu.old }
        ensures size { length frames.new ≡ length frames.old }
    {
        self.leave(frames, END_AREA, &end_bytes(cpu));
        enter_resumed(cpu, self.handlers.end);
    }

    /// The registers with which a transfer enters the environment, which handles it: its caller's, at the
    /// entry for this kind. What the environment needs to go on where it stood, and who calls it, stands
    /// in its context page, and it accepts nobody (`docs/KERNEL.md`, "Transfers").
    pub fn enter(&mut self, frames: &mut Frames, from: u8, kind: TransferKind, caller: &Cpu) -> Cpu
        requires handled { handler_of self.old.handlers (entry_context kind) ≢ 0 }
        requires there { IfSome (page_of self.old.mappings 1) (λ page. page < length frames.old) }
        ensures cpu { result ≡ entered_cpu (handler_of self.old.handlers (entry_context kind)) (carried caller.now) }
        ensures frames { frames.new ≡ left_in entry_area (entry_bytes from kind self.old.cpu) (page_of self.old.mappings 1) frames.old }
        ensures env { self.new ≡ record self.old { mask = 0 } }
        ensures size { length frames.new ≡ length frames.old }
    {
        let bytes = entry_bytes(&self.cpu, from, kind);
        self.leave(frames, ENTRY_AREA, &bytes);
        self.set_accept(0);
        entered(self.handler(kind.context()), caller)
    }

    /// The environment is dead: nothing of it is kept, and all its registers are 0.
    pub fn clear(&mut self)
        ensures { self.new ≡ gone_env }
    {
        self.cpu = Cpu::blank();
        self.handlers = Handlers::none();
        self.mask = 0;
        self.mappings.clear();
    }
}
