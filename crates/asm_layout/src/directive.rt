//! Directives.
ghost use Rattle.std.specs.Prelude.{◌≡◌};

use crate::number::NumberSize;
use crate::section::Section;
use line_text::{TableRow, find, table_rows};

/// An operation that is no instruction.
#[derive(Clone, Copy)]
pub(crate) enum Directive {
    /// `.text` and `.data`: go on in a section.
    Enter(Section),
    /// `.word`, `.half` and `.byte`: put numbers.
    Numbers(NumberSize),
    /// `.ascii`: put the bytes of a text.
    Ascii,
    /// `.asciiz`: put the bytes of a text and a zero.
    Asciiz,
    /// `.space`: put zeros.
    Space,
    /// `.align`: put zeros up to a multiple of a power of 2.
    Align,
    /// `.equ`: give a name a value.
    Equ,
}

/// The directives by name.
const DIRECTIVES: [TableRow<Directive>; 10] = table_rows![
    b".text" => Directive::Enter(Section::Text),
    b".data" => Directive::Enter(Section::Data),
    b".word" => Directive::Numbers(NumberSize::Word),
    b".half" => Directive::Numbers(NumberSize::Half),
    b".byte" => Directive::Numbers(NumberSize::Byte),
    b".ascii" => Directive::Ascii,
    b".asciiz" => Directive::Asciiz,
    b".space" => Directive::Space,
    b".align" => Directive::Align,
    b".equ" => Directive::Equ,
];

impl Directive {
    ghost use Rattle.std.specs.Prelude.{◌≡◌};
    ghost use Rattle.asm_layout.specs.Action.{directive_of};

    /// The directive of a name, if it has one.
    #[tactic(auto, unfolding(crate::specs::Action::directive_of))]
    pub(crate) fn named(name: &[u8]) -> Option<Directive>
        ensures { result ≡ directive_of name.now }
    {
        find(&DIRECTIVES, name)
    }
}
