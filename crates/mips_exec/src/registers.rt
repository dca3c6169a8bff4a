//! The registers of the processor.
ghost use Rattle.std.specs.Prelude.{◌≡◌};
ghost use Rattle.mips_exec.specs.Cpu.{advanced, blank_cpu, going_on_at, reg, rested, restart_of, with_reg};

/// The registers of the processor (`docs/MACHINE.md`, "Registers").
#[derive(Clone, Copy)]
pub struct Cpu {
    /// `$0` to `$31`. `$0` reads 0, whatever stands here.
    pub regs: [u32; 32],
    /// The high word of a product, or a remainder.
    pub hi: u32,
    /// The low word of a product, or a quotient.
    pub lo: u32,
    /// The address of the instruction to run.
    pub pc: u32,
    /// The address of the instruction after it.
    pub next: u32,
    /// `pc` is the delay slot of a branch or jump.
    pub slot: bool,
}

impl Cpu {
    /// The registers of a machine in which nothing has run: all are 0.
    pub fn blank() -> Cpu
        ensures { result ≡ blank_cpu }
    {
        Cpu {
            regs: [0; 32],
            hi: 0,
            lo: 0,
            pc: 0,
            next: 0,
            slot: false,
        }
    }

    /// The registers with which a stopped program goes on: at its restart address, out of a delay slot.
    pub fn rested(&self) -> Cpu
        ensures { result ≡ rested self.now }
    {
        let mut cpu = *self;
        cpu.go_on_at(restart(self));
        cpu
    }

    /// Goes on at an address, out of a delay slot.
    pub fn go_on_at(&mut self, address: u32)
        ensures { self.new ≡ going_on_at self.old address }
    {
        self.pc = address;
        self.next = address.wrapping_add(4);
        self.slot = false;
    }

    /// What register `n` reads, 0 from 32 on.
    pub fn reg(&self, n: u8) -> u32
        ensures { result ≡ reg self.now n }
    {
        if 0 < n && n < 32 {
            self.regs[usize::from(n)]
        } else {
            0
        }
    }

    /// Writes register `n`, below 32; register 0 stays.
    pub fn set_reg(&mut self, n: u8, value: u32)
        ensures { self.new ≡ with_reg self.old n value }
    {
        if 0 < n && n < 32 {
            self.regs[usize::from(n)] = value;
        }
    }

    /// Goes on to the next instruction, out of a delay slot.
    pub fn advance(&mut self)
        ensures { self.new ≡ advanced self.old }
    {
        self.pc = self.next;
        self.next = self.next.wrapping_add(4);
        self.slot = false;
    }
}

/// The address at which a stopped program goes on: that of the branch where `pc` is its delay slot,
/// modulo 2^32, else `pc`.
pub fn restart(cpu: &Cpu) -> u32
    ensures { result ≡ restart_of cpu.now }
{
    if cpu.slot {
        cpu.pc.wrapping_sub(4)
    } else {
        cpu.pc
    }
}
