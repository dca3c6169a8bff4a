//! The laws of words and instructions.
ghost use Rattle.std.specs.Prelude.{◌≡◌, ℕ};
ghost use Rattle.mips_isa.specs.declared.insn.Insn.{Insn};
ghost use Rattle.mips_isa.specs.Encoding.{insn_of, IsEncodable, Spells, word_of};

use mips_isa::Insn;

/// Law: every word spells exactly one instruction.
pub fn each_word_spells_one_instruction(word: u32)
    ensures one { Spells word (insn_of word) }
    ensures no_other { (insn : Insn) → Spells word insn → insn ≡ insn_of word }
{}

/// Law: at most one word spells an instruction.
pub fn one_word_spells_each_instruction(first: u32, second: u32, insn: &Insn)
    requires first { Spells first insn.now }
    requires second { Spells second insn.now }
    ensures { first ≡ second }
{}

/// Law: the word of an instruction whose fields fit spells it, and no other word does.
pub fn only_word_spells(insn: &Insn)
    requires { IsEncodable insn.now }
    ensures spells { Spells (word_of insn.now) insn.now }
    ensures only { (word : ℕ) → Spells word insn.now → word ≡ word_of insn.now }
{}
