//! The instructions that a handler may have.
ghost use Rattle.std.specs.Prelude.{◌≡◌};
ghost use Rattle.handler_rules.specs.Instructions.{branch_offset, is_allowed, is_barred_from_slots, branches};

use mips_isa::Insn;

/// Whether an instruction may stand in a handler.
#[tactic(auto, unfolding(crate::specs::Instructions::is_allowed))]
pub(crate) fn is_allowed(insn: Insn) -> bool
    ensures { result ≡ is_allowed insn }
{
    match insn {
        Insn::Sll { .. } | Insn::Srl { .. } | Insn::Sra { .. } => true,
        Insn::Sllv { .. } | Insn::Srlv { .. } | Insn::Srav { .. } => true,
        Insn::Addu { .. } | Insn::Subu { .. } => true,
        Insn::And { .. } | Insn::Or { .. } | Insn::Xor { .. } | Insn::Nor { .. } => true,
        Insn::Slt { .. } | Insn::Sltu { .. } => true,
        Insn::Addiu { .. } | Insn::Slti { .. } | Insn::Sltiu { .. } => true,
        Insn::Andi { .. } | Insn::Ori { .. } | Insn::Xori { .. } | Insn::Lui { .. } => true,
        Insn::Lb { .. } | Insn::Lbu { .. } | Insn::Lh { .. } | Insn::Lhu { .. } => true,
        Insn::Lw { .. } | Insn::Sb { .. } | Insn::Sh { .. } | Insn::Sw { .. } => true,
        Insn::Beq { .. } | Insn::Bne { .. } | Insn::Blez { .. } | Insn::Bgtz { .. } => true,
        Insn::Bltz { .. } | Insn::Bgez { .. } => true,
        Insn::Syscall { .. } | Insn::Break { .. } => true,
        Insn::Add { .. } | Insn::Sub { .. } | Insn::Addi { .. } => false,
        Insn::Mult { .. } | Insn::Multu { .. } | Insn::Div { .. } | Insn::Divu { .. } => false,
        Insn::Mfhi { .. } | Insn::Mthi { .. } | Insn::Mflo { .. } | Insn::Mtlo { .. } => false,
        Insn::J { .. } | Insn::Jal { .. } | Insn::Jr { .. } | Insn::Jalr { .. } => false,
        Insn::Bltzal { .. } | Insn::Bgezal { .. } => false,
        Insn::Lwl { .. } | Insn::Lwr { .. } | Insn::Swl { .. } | Insn::Swr { .. } => false,
        Insn::Mfc0 { .. } | Insn::Mtc0 { .. } | Insn::Rfe => false,
        Insn::Tlbr | Insn::Tlbwi | Insn::Tlbwr | Insn::Tlbp => false,
        Insn::Cop { .. } | Insn::Reserved(_) => false,
    }
}

/// The offset of a branch, which other instructions haven't got.
#[tactic(auto, unfolding(crate::specs::Instructions::branch_offset))]
pub(crate) fn branch_offset(insn: Insn) -> Option<u16>
    ensures { result ≡ branch_offset insn }
{
    match insn {
        Insn::Beq { imm, .. } | Insn::Bne { imm, .. } => Some(imm),
        Insn::Blez { imm, .. } | Insn::Bgtz { imm, .. } => Some(imm),
        Insn::Bltz { imm, .. } | Insn::Bgez { imm, .. } => Some(imm),
        _ => None,
    }
}

/// Whether it is a branch.
pub(crate) fn is_branch(insn: Insn) -> bool
    ensures { result ≡ branches insn }
{
    branch_offset(insn).is_some()
}

/// Whether it may not stand behind a branch.
#[tactic(auto, unfolding(crate::specs::Instructions::is_barred_from_slots))]
pub(crate) fn is_barred_from_slots(insn: Insn) -> bool
    ensures { result ≡ is_barred_from_slots insn }
{
    match insn {
        Insn::Syscall { .. } | Insn::Break { .. } => true,
        _ => is_branch(insn),
    }
}
