//! The library operating system's shares of the processor: a source of `examples/exos`, as its file has it.

/// A stride scheduler, and three environments that live on the slices that it gives.
pub const STRIDE: &str =
    "# ExOS, stride scheduling. A program with one slot shares it out among three others, three parts to the first, two to the
# second and one to the third.
#
# Who decides what
#
#   The kernel has slots, and runs each slot's holder for a quantum, one slot after the other. It has no priorities and no
#   shares. A running environment may give the rest of its slice to any environment that accepts its yields.
#
#   The scheduler below decides who runs. It is a program like others, and the kernel knows nothing of its shares. A lottery, or
#   a scheduler that goes by deadlines, is another library and the same kernel. Several may run side by side, each with slots
#   of its own.
#
# How the kernel protects
#
#   The scheduler has its own slot to give, and no other time. An environment that doesn't trust it has a slot of its own, or
#   accepts nobody's yields. A client can't keep the processor: at the end of the slice it is stopped, and the next slice is the
#   scheduler's. A client that handles the ends of its slices may run on for a while, and the kernel counts what it takes: it is
#   dead when it owes more than eight quanta.
#
# Stride scheduling
#
#   Each client has a share and a pass. The client with the lowest pass runs next, and among equal ones the first in the table.
#   Then its pass rises by its stride, which is a constant divided by its share. So one with three times the share of another
#   rises a third as fast, and runs three times as often. For the shares 3, 2 and 1 the constant may be 6, and the strides 2, 3
#   and 6:
#
#     passes          0 0 0   2 0 0   2 3 0   2 3 6   4 3 6   4 6 6   6 6 6
#     who runs            1       2       3       1       2       1
#
#   and from there on again. The constant here is 2,520, since all shares from 1 to 10 divide it, so that the passes meet again
#   exactly. Passes are compared by their difference, which stays right when they wrap at 2^32.
#
# The run
#
#   Environment 0 schedules, and the environments 1, 2 and 3, which accept its yields and have no slot, count in $16. The report's
#   rows `give` have the targets 1 2 3 1 2 1, again and again.

# Calls of the kernel: the number is in $2, the argument in $4; the answer's code is in $2, its value in $3
.equ call_yield,        0       # $4 an environment, or anybody
.equ call_self,         20

# A row of the table: a client's number, its share, from 1 to 10, and its pass
.equ number,            0
.equ share,             4
.equ pass,              8
.equ row,               12
.equ constant,          2520

start:  li   $2, call_self
        syscall
        bne  $3, $0, client
        nop

# --- Environment 0, the scheduler ---------------------------------------------------------------------------------------
# $16 the table, $17 its end; $8 the row that is looked at, $9 the row of the lowest pass so far, $10 that pass

        la   $16, clients
        la   $17, clients_end

next:   move $9, $16
        lw   $10, pass($16)
        addiu $8, $16, row
look:   lw   $11, pass($8)
        subu $12, $11, $10
        bgez $12, other         # of equal passes the first in the table counts
        nop
        move $9, $8
        move $10, $11
other:  addiu $8, $8, row
        bne  $8, $17, look
        nop

        lw   $11, share($9)
        addiu $12, $0, constant
        divu $12, $11           # the stride
        mflo $11
        addu $10, $10, $11
        sw   $10, pass($9)
        li   $2, call_yield     # a directed yield: the rest of the slice
        lw   $4, number($9)
        syscall
        b    next               # granted: the next slice. Refused, since the client is dead: the next client, in this slice
        nop

# --- Environments 1, 2 and 3, the clients -------------------------------------------------------------------------------

client: addiu $16, $16, 1
        b    client
        nop

.data
clients: .word 1, 3, 0          # a client's number, its share, its pass
        .word 2, 2, 0
        .word 3, 1, 0
clients_end:
";
