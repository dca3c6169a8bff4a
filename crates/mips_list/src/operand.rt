//! The operands of instructions, as the bits of a word say them.
ghost use Rattle.std.specs.Prelude.{◌≡◌, ◌++◌, ◌∷◌, ◌≤◌, OnOk, ◌<◌, ◌^◌};
ghost use Rattle.line_text.specs.Growth.{Keeps};
ghost use Rattle.mips_list.specs.WordText.{after_name, based_text, branch_target, field_text, hexadecimal, is_written, jump_target, operand_text, operand_texts, signed_text, slot_text};

use aegis_limits::OutOfMemory;
use line_text::{Word, push_hex, push_word};
use mips_codec::sign16;
use mips_text::{Field, OperandForm, Slot};

/// What stands before the first operand.
const FIRST: u8 = b' ';
/// What stands before each further one.
const NEXT: u8 = b',';

/// Appends the operands of a word that stands at an address, a space before the first and a comma before
/// each further one.
pub(crate) fn push_operands(
    forms: &[OperandForm],
    word: u32,
    address: u32,
    out: &mut Vec<u8>,
) -> Result<(), OutOfMemory>
    ensures ok { OnOk result (out.new.items ≡ out.old.items ++ after_name (operand_texts forms.now word address)) }
    ensures keeps { Keeps out.old.items out.new.items }
{
    let mut mark = FIRST;
    for form in forms {
        if is_written(*form, word) {
            push_operand(mark, *form, word, address, out)?;
            mark = NEXT;
        }
    }
    Ok(())
}

/// Whether an operand of a word is written: an optional one that is 0 isn't.
fn is_written(form: OperandForm, word: u32) -> bool
    ensures { result ≡ is_written form word }
{
    match form {
        OperandForm::Optional(field) => field.get(word) != 0,
        _ => true,
    }
}

/// Appends a mark and an operand.
fn push_operand(
    mark: u8,
    form: OperandForm,
    word: u32,
    address: u32,
    out: &mut Vec<u8>,
) -> Result<(), OutOfMemory>
    ensures ok { OnOk result (out.new.items ≡ out.old.items ++ mark ∷ operand_text form word address) }
    ensures keeps { Keeps out.old.items out.new.items }
{
    match form {
        OperandForm::Register(slot) => push_slot(mark, slot, word, out),
        OperandForm::Value(field) | OperandForm::Optional(field) => {
            push_field(mark, field, word, address, out)
        }
        OperandForm::Based => push_based(mark, word, address, out),
        OperandForm::Halves => push_field(mark, Field::Unsigned, word, address, out),
    }
}

/// Appends a mark and a register of a word.
fn push_slot(mark: u8, slot: Slot, word: u32, out: &mut Vec<u8>) -> Result<(), OutOfMemory>
    ensures ok { OnOk result (out.new.items ≡ out.old.items ++ mark ∷ slot_text slot word) }
    ensures keeps { Keeps out.old.items out.new.items }
{
    push_word(out, Word::Text(&[mark, b'$']))?;
    push_word(out, Word::Number(u64::from(slot.get(word))))
}

/// Appends a mark, a signed half, and a register in brackets.
fn push_based(mark: u8, word: u32, address: u32, out: &mut Vec<u8>) -> Result<(), OutOfMemory>
    ensures ok { OnOk result (out.new.items ≡ out.old.items ++ mark ∷ based_text word address) }
    ensures keeps { Keeps out.old.items out.new.items }
{
    push_field(mark, Field::Signed, word, address, out)?;
    push_slot(b'(', Slot::Rs, word, out)?;
    push_word(out, Word::Text(b")"))
}

/// Appends a mark and the number in a field of a word that stands at an address.
fn push_field(
    mark: u8,
    field: Field,
    word: u32,
    address: u32,
    out: &mut Vec<u8>,
) -> Result<(), OutOfMemory>
    ensures ok { OnOk result (out.new.items ≡ out.old.items ++ mark ∷ field_text field word address) }
    ensures keeps { Keeps out.old.items out.new.items }
{
    push_word(out, Word::Text(&[mark]))?;
    let number = field.get(word);
    match field {
        Field::Amount | Field::Code => push_word(out, Word::Number(u64::from(number))),
        Field::Signed => push_signed(number as u16, out),
        Field::Unsigned => push_hexadecimal(number, 4, out),
        Field::Branch => push_hexadecimal(branch_target(address, number as u16), 8, out),
        Field::Jump => push_hexadecimal(jump_target(address, number), 8, out),
    }
}

/// Appends a half as a number with its sign.
fn push_signed(half: u16, out: &mut Vec<u8>) -> Result<(), OutOfMemory>
    ensures ok { OnOk result (out.new.items ≡ out.old.items ++ signed_text half) }
    ensures keeps { Keeps out.old.items out.new.items }
{
    if half < 0x8000 {
        return push_word(out, Word::Number(u64::from(half)));
    }
    push_word(out, Word::Text(b"-"))?;
    push_word(out, Word::Number(0x1_0000 - u64::from(half)))
}

/// Appends `0x` and so many hexadecimal digits of a number.
pub(crate) fn push_hexadecimal(n: u32, digits: u8, out: &mut Vec<u8>) -> Result<(), OutOfMemory>
    requires { (1 ≤ digits) × (digits ≤ 8) }
    ensures ok { OnOk result (out.new.items ≡ out.old.items ++ hexadecimal digits n) }
    ensures keeps { Keeps out.old.items out.new.items }
{
    push_word(out, Word::Text(b"0x"))?;
    push_hex(out, n, digits)
}

/// Where a branch with this half goes, from an address.
fn branch_target(address: u32, half: u16) -> u32
    ensures { result ≡ branch_target address half }
{
    address
        .wrapping_add(4)
        .wrapping_add(sign16(half).wrapping_mul(4))
}

/// Where a jump with these 26 bits goes, from an address.
fn jump_target(address: u32, target: u32) -> u32
    requires { target < 2 ^ 26 }
    ensures { result ≡ jump_target address target }
{
    (address.wrapping_add(4) >> 28 << 28) + target * 4
}
