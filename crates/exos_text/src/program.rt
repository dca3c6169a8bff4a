//! The program of the load: its source, as `examples/exos/load.s` has it, and its ELF file.
ghost use Rattle.std.specs.Prelude.{◌≡◌, length};
ghost use Rattle.exos_text.specs.LoadElf.{load_elf};

/// The source: sixteen environments, each of which claims the packets whose first byte is its number.
pub const LOAD: &str =
    "# ExOS, a load. Sixteen environments share 64 slots, and each claims the packets whose first byte is its number.
#
# Who decides what
#
#   The kernel runs the slots by turns, and sorts packets: each goes to the environment that has claimed it, into a page of
#   that environment, whoever runs just then. It knows no protocol. A claim is a filter, which says which bytes of a packet
#   have which values.
#
#   The program decides which packets are its own, where they are stored, when it looks, and what it does with them. This one
#   does nothing with them. It reads the kernel's count of packets again and again, and its ring is full after two.
#
# How the kernel protects
#
#   No two environments can claim the same packet: a filter that overlaps another's is refused. The ring has to be a page of
#   the claimant's own. A packet that nobody claims is dropped, and one for a full ring is lost, so a flood of packets costs no
#   environment more than its own two buffers, and no time at all.
#
# The filter
#
#   All environments have the same text and each has its own data. So the program asks for its number, and stores it as the value
#   of its filter's one atom.
#
# The run
#
#   Each environment counts its rounds in $17, and in $18 adds up the counts of packets that it read. The schedule has a packet
#   in every thousandth tick, of 64 bytes, and the first of them is a number from 0 to 31. So about half of the packets are for
#   nobody, and are dropped.

# Calls of the kernel: the number is in $2, arguments are in $4 to $8; the answer's code is in $2, its value in $3
.equ call_alloc,        3       # $4 a page or any; $5 to $8 the words, which are 0 here, as all registers are at the start
.equ call_claim,        14      # $4 address of a filter, $5 its atoms, $6 a page
.equ call_self,         20
.equ any_page,          -1

# The context page
.equ post_packets,      0x1140  # packets that came for the environment's claims, lost ones too

# The filter's atom
.equ value,             8
.equ atoms,             1

# --- Each environment ---------------------------------------------------------------------------------------------------

start:  li   $2, call_self
        syscall
        la   $10, atom
        sw   $3, value($10)     # the first byte of its packets is its number
        li   $2, call_alloc
        li   $4, any_page
        syscall
        move $6, $3             # the ring
        li   $2, call_claim
        move $4, $10
        li   $5, atoms
        syscall

loop:   addiu $17, $17, 1
        lw   $9, post_packets($0)
        b    loop
        addu $18, $18, $9       # runs before the branch is over

.data
atom:   .half 0, 1              # offset and width of the field
        .word 0xff, 0           # mask and value
";

/// The ELF file of `LOAD`.
pub const LOAD_ELF: [u8; 216] = [
    0x7f, 0x45, 0x4c, 0x46, 0x01, 0x01, 0x01, 0x00, 0x00, 0x00, 0x00, 0x00, 0x00, 0x00, 0x00, 0x00,
    0x02, 0x00, 0x08, 0x00, 0x01, 0x00, 0x00, 0x00, 0x00, 0x00, 0x40, 0x00, 0x34, 0x00, 0x00, 0x00,
    0x00, 0x00, 0x00, 0x00, 0x00, 0x00, 0x00, 0x00, 0x34, 0x00, 0x20, 0x00, 0x02, 0x00, 0x00, 0x00,
    0x00, 0x00, 0x00, 0x00, 0x01, 0x00, 0x00, 0x00, 0x74, 0x00, 0x00, 0x00, 0x00, 0x00, 0x40, 0x00,
    0x00, 0x00, 0x40, 0x00, 0x58, 0x00, 0x00, 0x00, 0x58, 0x00, 0x00, 0x00, 0x05, 0x00, 0x00, 0x00,
    0x01, 0x00, 0x00, 0x00, 0x01, 0x00, 0x00, 0x00, 0xcc, 0x00, 0x00, 0x00, 0x00, 0x00, 0x00, 0x10,
    0x00, 0x00, 0x00, 0x10, 0x0c, 0x00, 0x00, 0x00, 0x0c, 0x00, 0x00, 0x00, 0x06, 0x00, 0x00, 0x00,
    0x01, 0x00, 0x00, 0x00, 0x00, 0x00, 0x02, 0x3c, 0x14, 0x00, 0x42, 0x34, 0x0c, 0x00, 0x00, 0x00,
    0x00, 0x10, 0x0a, 0x3c, 0x00, 0x00, 0x4a, 0x35, 0x08, 0x00, 0x43, 0xad, 0x00, 0x00, 0x02, 0x3c,
    0x03, 0x00, 0x42, 0x34, 0xff, 0xff, 0x04, 0x3c, 0xff, 0xff, 0x84, 0x34, 0x0c, 0x00, 0x00, 0x00,
    0x21, 0x30, 0x60, 0x00, 0x00, 0x00, 0x02, 0x3c, 0x0e, 0x00, 0x42, 0x34, 0x21, 0x20, 0x40, 0x01,
    0x00, 0x00, 0x05, 0x3c, 0x01, 0x00, 0xa5, 0x34, 0x0c, 0x00, 0x00, 0x00, 0x01, 0x00, 0x31, 0x26,
    0x40, 0x11, 0x09, 0x8c, 0xfd, 0xff, 0x00, 0x10, 0x21, 0x90, 0x49, 0x02, 0x00, 0x00, 0x01, 0x00,
    0xff, 0x00, 0x00, 0x00, 0x00, 0x00, 0x00, 0x00,
];

/// The same bytes, as the definitions name them.
#[tactic(auto, unfolding(crate::specs::LoadElf::load_elf))]
pub(crate) fn load_elf() -> &'static [u8]
    ensures bytes { result.now ≡ load_elf }
    ensures size { length result.now ≡ 216 }
{
    &LOAD_ELF
}
