//! An environment's memory, of which a store is noted and not made.

use crate::place::locate;
use crate::space::Space;
use byte_numbers::number_at;
use byteorder::{ByteOrder, LittleEndian};
use frame_store::Frames;
use mips_exec::{AccessKind, Exc};
use mips_step::Bus;

/// A store: its address, and the low bytes of a value, 1 to 4.
#[derive(Clone, Copy)]
pub struct Written {
    pub address: u32,
    pub width: u8,
    pub value: u32,
}

/// Physical memory as an environment sees it, and the store that it would make.
#[derive(Drop)]
pub(crate) struct PeekBus<'a> {
    pub frames: &'a Frames,
    pub space: &'a Space<'a>,
    pub written: Option<Written>,
}

impl Bus for PeekBus<'_> {
    ghost use Rattle.std.proofs.Common.{refl, sym, ◌∙◌, ap};
    ghost use Rattle.world_model.specs.Page.{answers_by};
    ghost use Rattle.guest_memory.specs.Look.{look};
    ghost use Rattle.guest_memory.specs.Space.{lookup};
    ghost use Rattle.guest_memory.specs.Peek.{IsKept, IsNoted, seen_through};

    ghost answers = { λ b. seen_through b.frames.now b.space.now };

    ghost Kept = { IsKept };

    ghost Stored = { IsNoted };

    ghost keeps_itself = { λ b. record { frames = refl; space = refl; written = refl } };

    ghost keeps_on = { λ a b c first then. record { frames = then.frames ∙ first.frames; space = then.space ∙ first.space; written = then.written ∙ first.written } };

    ghost keeps_answers = { λ a b kept. ap (λ frames. seen_through frames a.space.now) (sym kept.frames) ∙ ap (seen_through b.frames.now) (sym kept.space) };

    ghost stores_on = { λ a b c address bytes kept then. then };

    fn fetch(&mut self, va: u32) -> Result<u32, Exc> {
        let mapping = locate(self.frames, self.space, AccessKind::Fetch, va)?;
        Ok(LittleEndian::read_u32(self.frames.bytes_from(mapping.page, va)))
    }

    fn load(&mut self, va: u32, width: u8) -> Result<u32, Exc> {
        let mapping = locate(self.frames, self.space, AccessKind::Load, va)?;
        Ok(number_at(self.frames.bytes_from(mapping.page, va), width))
    }

    fn store(&mut self, va: u32, width: u8, value: u32) -> Result<(), Exc> {
        let _mapping = locate(self.frames, self.space, AccessKind::Store, va)?;
        self.written = Some(Written {
            address: va,
            width,
            value,
        });
        Ok(())
    }
}
