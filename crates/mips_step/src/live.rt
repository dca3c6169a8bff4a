//! The registers of a program while its steps are made.
ghost use Rattle.std.specs.Prelude.{◌≡◌, ◌<◌, slice_index, slice_set};
ghost use Rattle.mips_exec.specs.Cpu.{advanced, jumped, reg, with_hi_lo, with_reg};
ghost use Rattle.mips_step.specs.Live.{HasZero, IsSameLive, joined};

use mips_exec::Cpu;

/// The registers of a program while its steps are made: the addresses that each step changes are apart from the others, so
/// that a loop of steps keeps them in registers of the host; and register 0 holds 0, so that no read asks for its number.
#[derive(Drop)]
pub struct Live<'a> {
    /// All registers; `pc` and `next` have the values before these steps.
    cpu: &'a mut Cpu,
    /// What register 0 held before these steps.
    zeroth: u32,
    pub pc: u32,
    pub next: u32,
}

/// What the general register `n` holds.
fn general(cpu: &Cpu, n: u8) -> u32
    requires { n < 32 }
    ensures { result ≡ slice_index cpu.now.regs n }
{
    cpu.regs[usize::from(n)]
}

/// Writes the general register `n`, below 32, and 0 into register 0.
fn set_general(cpu: &mut Cpu, n: u8, value: u32)
    ensures { cpu.new ≡ record cpu.old { regs = slice_set (slice_set cpu.old.regs n value) 0 0 } }
{
    if n < 32 {
        cpu.regs[usize::from(n)] = value;
    }
    cpu.regs[0] = 0;
}

impl<'a> Live<'a> {
    /// The processor's registers as steps want them.
    #[inline(always)]
    pub fn of(cpu: &'a mut Cpu) -> Live<'a>
        ensures same { result.cpu.ghost_name ≡ cpu.entry.ghost_name }
        ensures cpu { joined result ≡ cpu.old }
        ensures zero { HasZero result }
    {
        let Cpu { pc, next, .. } = *cpu;
        let zeroth = cpu.regs[0];
        cpu.regs[0] = 0;
        Live {
            cpu,
            zeroth,
            pc,
            next,
        }
    }

    /// Gives the processor its registers back.
    #[inline(always)]
    pub fn settle(&mut self)
        ensures same { IsSameLive self.old self.new }
        ensures cpu { self.new.cpu.now ≡ joined self.old }
        ensures kept { joined self.new ≡ joined self.old }
    {
        self.cpu.regs[0] = self.zeroth;
        self.cpu.pc = self.pc;
        self.cpu.next = self.next;
    }

    /// What register `n` reads.
    #[inline(always)]
    pub(crate) fn reg(&self, n: u8) -> u32
        requires number { n < 32 }
        requires zero { HasZero self.now }
        ensures { result ≡ reg (joined self.now) n }
    {
        general(self.cpu, n)
    }

    /// Writes register `n`, below 32; register 0 stays.
    #[inline(always)]
    pub(crate) fn set_reg(&mut self, n: u8, value: u32)
        ensures same { IsSameLive self.old self.new }
        ensures cpu { joined self.new ≡ with_reg (joined self.old) n value }
        ensures zero { HasZero self.old → HasZero self.new }
    {
        set_general(self.cpu, n, value);
    }

    /// Whether it is in a delay slot.
    #[inline(always)]
    pub(crate) fn slot(&self) -> bool
        ensures { result ≡ (joined self.now).slot }
    {
        self.cpu.slot
    }

    /// What HI reads.
    #[inline(always)]
    pub(crate) fn hi(&self) -> u32
        ensures { result ≡ (joined self.now).hi }
    {
        self.cpu.hi
    }

    /// What LO reads.
    #[inline(always)]
    pub(crate) fn lo(&self) -> u32
        ensures { result ≡ (joined self.now).lo }
    {
        self.cpu.lo
    }

    /// HI and LO take the values.
    #[inline(always)]
    pub(crate) fn set_hi_lo(&mut self, high: u32, low: u32)
        ensures same { IsSameLive self.old self.new }
        ensures cpu { joined self.new ≡ with_hi_lo (joined self.old) high low }
        ensures zero { HasZero self.old → HasZero self.new }
    {
        self.cpu.hi = high;
        self.cpu.lo = low;
    }

    /// Goes on to the next instruction, out of a delay slot.
    #[inline(always)]
    pub(crate) fn advance(&mut self)
        ensures same { IsSameLive self.old self.new }
        ensures cpu { joined self.new ≡ advanced (joined self.old) }
        ensures zero { HasZero self.old → HasZero self.new }
    {
        self.pc = self.next;
        self.next = self.next.wrapping_add(4);
        self.cpu.slot = false;
    }

    /// Goes on to the delay slot, and from there to the target.
    #[inline(always)]
    pub(crate) fn jump(&mut self, target: u32)
        ensures same { IsSameLive self.old self.new }
        ensures cpu { joined self.new ≡ jumped (joined self.old) target }
        ensures zero { HasZero self.old → HasZero self.new }
    {
        self.pc = self.next;
        self.next = target;
        self.cpu.slot = true;
    }
}
