//! A row of the TLB, and its words.
ghost use Rattle.std.specs.Prelude.{◌≡◌, ◌<◌};
ghost use Rattle.r3k_tlb.specs.Row.{emptied_row, fits, hi_word_of, is_dirty, is_global, is_odd, is_valid, lo_word_of, row_page, pid_numbers, row_pid, row_vpn, page_numbers};

/// The first word of an emptied row, and the first address that is no user's.
pub(crate) const USER_END: u32 = 0x8000_0000;

/// Virtual pages, and pages of physical memory, have numbers below this.
pub(crate) const PAGE_NUMBERS: u32 = 0x10_0000;

/// Processes have numbers below this.
pub(crate) const PID_NUMBERS: u8 = 64;

/// Two words of the TLB, as EntryHi and EntryLo have them (`docs/MACHINE.md`, "The TLB").
#[derive(Clone, Copy)]
pub struct Row {
    /// The VPN in bits 31:12, and the number of the process (PID) in bits 11:6.
    pub hi: u32,
    /// The page of physical memory in bits 31:12, and the bits N 11, D 10, V 9 and G 8.
    pub lo: u32,
}

impl Row {
    /// The row that serves no user's address.
    pub fn emptied() -> Row
        ensures { result ≡ emptied_row }
    {
        Row {
            hi: USER_END,
            lo: 0,
        }
    }

    /// The virtual page that it is of: an address over 4,096.
    #[inline(always)]
    pub fn vpn(self) -> u32
        ensures { result ≡ row_vpn self }
    {
        self.hi >> 12
    }

    /// The process that it is of, below 64.
    #[inline(always)]
    pub fn pid(self) -> u8
        ensures { result ≡ row_pid self }
    {
        ((self.hi >> 6) & 0x3f) as u8
    }

    /// The number of the page of physical memory that it leads to.
    #[inline(always)]
    pub fn page(self) -> u32
        ensures { result ≡ row_page self }
    {
        self.lo >> 12
    }

    /// Bit D: stores go through.
    #[inline(always)]
    pub fn is_dirty(self) -> bool
        ensures { result ≡ is_dirty self }
    {
        (self.lo >> 10) & 1 == 1
    }

    /// Bit V: the row leads to its page.
    #[inline(always)]
    pub fn is_valid(self) -> bool
        ensures { result ≡ is_valid self }
    {
        (self.lo >> 9) & 1 == 1
    }

    /// Bit G: the row is of every process.
    #[inline(always)]
    pub fn is_global(self) -> bool
        ensures { result ≡ is_global self }
    {
        (self.lo >> 8) & 1 == 1
    }

    /// Whether it is of this virtual page for this process.
    pub fn fits(self, vpn: u32, pid: u8) -> bool
        ensures { result ≡ fits vpn pid self }
    {
        self.vpn() == vpn && (self.pid() == pid || self.is_global())
    }

    /// Whether its first word alone doesn't tell what it fits.
    pub(crate) fn is_odd(self) -> bool
        ensures { result ≡ is_odd self }
    {
        self.hi & 0x3f != 0 || self.is_global()
    }
}

/// The first word of a row of this virtual page, below 0x100000, for this process, below 64.
#[inline(always)]
pub fn hi_word(vpn: u32, pid: u8) -> u32
    requires vpn { vpn < page_numbers }
    requires pid { pid < pid_numbers }
    ensures { result ≡ hi_word_of vpn pid }
{
    (vpn << 12) + (u32::from(pid) << 6)
}

/// The second word of a row that leads to this page, below 0x100000: V, and D where it may be stored to.
#[inline(always)]
pub fn lo_word(page: u32, writable: bool) -> u32
    requires { page < page_numbers }
    ensures { result ≡ lo_word_of page writable }
{
    let dirty = if writable { 0x400 } else { 0 };
    (page << 12) + dirty + 0x200
}
