//! Names and registers.
ghost use Rattle.std.specs.Prelude.{◌≡◌, ◌≤◌, length, not};
ghost use Rattle.std.specs.List.{list_all, position, prefix_len};
ghost use Rattle.std.specs.Char.{is_ascii_alphanumeric};
ghost use Rattle.asm_parse.specs.Bytes.{is_name_byte};
ghost use Rattle.asm_parse.specs.Words.{begins_name, is_register};

use crate::bytes::{is_name_byte, is_name_start};

/// How many bytes of a name stand at the front.
#[tactic(auto, using(line_text::proofs::FrontLemmas::front_place))]
pub(crate) fn name_length(bytes: &[u8]) -> usize
    ensures count { result ≡ prefix_len is_name_byte bytes.now }
    ensures within { result ≤ length bytes.now }
{
    first_other(bytes).unwrap_or(bytes.len())
}

/// The place of the first byte with which no name goes on.
fn first_other(bytes: &[u8]) -> Option<usize>
    ensures { result ≡ position (λ b. not (is_name_byte b)) bytes.now }
{
    bytes.iter().position(|byte| !is_name_byte(*byte))
}

/// Whether bytes begin as a name does.
pub(crate) fn begins_name(bytes: &[u8]) -> bool
    ensures { result ≡ begins_name bytes.now }
{
    match bytes {
        [first, ..] => is_name_start(*first),
        [] => false,
    }
}

/// Whether bytes are a register: `$` with letters or digits.
pub(crate) fn is_register(bytes: &[u8]) -> bool
    ensures { result ≡ is_register bytes.now }
{
    match bytes.split_first() {
        Some((first, name)) => *first == b'$' && !name.is_empty() && are_letters_or_digits(name),
        None => false,
    }
}

/// Whether each byte is a letter or a digit.
fn are_letters_or_digits(bytes: &[u8]) -> bool
    ensures { result ≡ list_all is_ascii_alphanumeric bytes.now }
{
    bytes.iter().all(|byte| byte.is_ascii_alphanumeric())
}
