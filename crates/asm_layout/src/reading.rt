//! Operands, as they are read one after another.
ghost use Rattle.std.specs.Prelude.{◌≡◌, ◌+◌, ◌<◌, ◌^◌};
ghost use Rattle.std.specs.Option.{option_map, unwrap_or};
ghost use Rattle.asm_parse.specs.Seen.{number_seen};
ghost use Rattle.asm_layout.specs.Draft as drafts;
ghost use Rattle.asm_layout.specs.Limits.{word_limit};

use crate::draft::Filling;
use asm_parse::{Arg, AsmWhy, Operand, Register};
use mips_text::{Field, OperandForm, Slot, Text};

/// An instruction as far as its operands are read.
#[derive(Clone, Copy)]
pub(crate) struct Reading<'a> {
    /// The word with its registers, where there are such registers.
    pub(crate) word: Option<u32>,
    /// What an expression gives to it.
    pub(crate) filling: Filling<'a>,
}

impl<'a> Reading<'a> {
    ghost use Rattle.std.specs.Prelude.{◌≡◌, ◌+◌, ◌<◌, ◌≤◌, ◌^◌, IfOk, length};
    ghost use Rattle.std.specs.Option.{option_map, unwrap_or};
    ghost use Rattle.asm_layout.specs.Limits.{word_limit};
    ghost use Rattle.mips_text.specs.Limits.{most_operands, text_word_limit};
    ghost use Rattle.mips_text.specs.Seen.{text_seen};
    ghost use Rattle.asm_parse.specs.Seen.{arg_seen};
    ghost use Rattle.line_text.specs.Outcome.{ok_seen};
    ghost use Rattle.asm_layout.specs.Draft.{read_operand, read_text};
    ghost use Rattle.asm_layout.specs.Seen.{operands_seen, reading_seen};

    /// What is read of an instruction with these operands. The fault is Syntax.
    pub(crate) fn of(text: Text, operands: &[Arg<'a>]) -> Result<Reading<'a>, AsmWhy>
        requires small { text.word < text_word_limit }
        requires few { length text.operands.now ≤ most_operands }
        ensures value { ok_seen reading_seen result ≡ read_text (text_seen text) (operands_seen operands.now) }
        ensures within { IfOk result (λ reading. unwrap_or reading.word 0 < word_limit) }
    {
        let Text {
            word,
            operands: forms,
        } = text;
        let mut reading = Reading {
            word: Some(word),
            filling: Filling::Whole,
        };
        for (place, form) in forms.iter().enumerate() {
            reading = reading.with(*form, operands.get(place))?;
        }
        if operands.len() > forms.len() {
            return Err(AsmWhy::Syntax);
        }
        Ok(reading)
    }

    /// What is read with one operand more, or without it. The fault is Syntax.
    fn with(self, form: OperandForm, arg: Option<&Arg<'a>>) -> Result<Reading<'a>, AsmWhy>
        requires { unwrap_or self.word 0 < word_limit }
        ensures value { ok_seen reading_seen result ≡ read_operand form (option_map (λ a. (arg_seen a.now).operand) arg.entry) (reading_seen self.entry) }
        ensures grows { IfOk result (λ reading. unwrap_or reading.word 0 < unwrap_or self.entry.word 0 + 2 ^ 26) }
    {
        let Reading { word, filling } = self;
        match (form, arg.map(|arg| &arg.operand)) {
            (OperandForm::Register(slot), Some(Operand::Register(register))) => Ok(Reading {
                word: with_register(word, slot, *register),
                filling,
            }),
            (
                OperandForm::Value(field) | OperandForm::Optional(field),
                Some(Operand::Value(value)),
            ) => Ok(Reading {
                word,
                filling: Filling::Filled(field, *value),
            }),
            (OperandForm::Optional(_), None) => Ok(self),
            (OperandForm::Based, Some(Operand::Based(offset, register))) => Ok(Reading {
                word: with_register(word, Slot::Rs, *register),
                filling: Filling::Filled(Field::Signed, *offset),
            }),
            (OperandForm::Halves, Some(Operand::Value(value))) => Ok(Reading {
                word,
                filling: Filling::Halves(*value),
            }),
            _ => Err(AsmWhy::Syntax),
        }
    }
}

/// A word with a register, where there are both.
fn with_register(word: Option<u32>, slot: Slot, register: Option<Register>) -> Option<u32>
    requires { unwrap_or word 0 < word_limit }
    ensures value { result ≡ drafts.with_register slot (option_map number_seen register) word }
    ensures grows { unwrap_or result 0 < unwrap_or word 0 + 2 ^ 26 }
{
    Some(word? + slot.put(register?.number))
}
