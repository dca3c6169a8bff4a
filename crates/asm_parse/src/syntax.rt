//! The lines of a source, as they are said.
ghost use Rattle.std.specs.Prelude.{◌≡◌, IfOk};

use crate::expression::Expression;
use crate::register::Register;
use std::alloc::{AllocError, Global};
use std::marker::Model;

/// A line that has a statement: its label and its operation.
#[derive(Drop)]
pub struct AsmLine<'a> {
    /// The line's number, from 1.
    pub line: u32,
    /// The place of the statement's first byte in the source.
    pub start: u32,
    /// The place behind its last byte.
    pub end: u32,
    /// The name before the colon, where there is one.
    pub label: Option<Name>,
    /// What follows the label.
    pub body: AsmBody<'a>,
}

/// The operation of a line.
#[derive(Drop)]
pub enum AsmBody<'a> {
    /// The line has a label alone.
    Nothing,
    /// An instruction: a name that doesn't begin with a point.
    Op {
        /// Its name.
        name: Name,
        /// Its operands.
        args: Args<'a>,
    },
    /// A directive: a name that begins with a point.
    Directive {
        /// Its name.
        name: Name,
        /// Its operands.
        args: Args<'a>,
    },
}

/// An operand, and where it stands in the source.
#[derive(Drop)]
pub struct Arg<'a> {
    /// The operand.
    pub operand: Operand<'a>,
    /// The place of its first byte in the source.
    pub start: u32,
    /// The place behind its last byte.
    pub end: u32,
}

/// An operand. A register is none where there is no register of that name.
#[derive(Drop)]
pub enum Operand<'a> {
    /// A register.
    Register(Option<Register>),
    /// An expression.
    Value(Expression<'a>),
    /// An offset, and a register in brackets.
    Based(Expression<'a>, Option<Register>),
    /// The bytes that a quoted text means.
    Quoted(Vec<u8>),
}

/// A name. Contracts see it as the list of its bytes.
#[derive(Drop)]
pub struct Name {
    bytes: Vec<u8>,
}

impl Model for Name {
    ghost use Rattle.std.specs.Prelude.{ℕ, List};

    ghost Value = { List ℕ };

    ghost view = { λ name. name.bytes.items };
}

impl Name {
    /// A copy of these bytes.
    pub(crate) fn new(alloc: Global, bytes: &[u8]) -> Result<Name, AllocError>
        ensures { IfOk result (λ name. name ≡ bytes.now) }
    {
        let bytes = Vec::from_slice(alloc, bytes)?;
        Ok(Name { bytes })
    }

    /// Its bytes.
    pub fn bytes(&self) -> &[u8]
        ensures { result.now ≡ self.now }
    {
        self.bytes.as_slice()
    }
}

/// The operands of an operation. Contracts see them as their list.
#[derive(Drop)]
pub struct Args<'a> {
    list: Vec<Arg<'a>>,
}

impl<'a> Model for Args<'a> {
    ghost use Rattle.std.specs.Prelude.{List, map};
    ghost use Rattle.asm_parse.specs.Arg.{ArgValue};
    ghost use Rattle.asm_parse.specs.Seen.{arg_seen};

    ghost Value = { List ArgValue };

    ghost view = { λ args. map arg_seen args.list.items };
}

impl<'a> Args<'a> {
    ghost use Rattle.std.specs.Prelude.{◌≡◌, map};
    ghost use Rattle.asm_parse.specs.Seen.{arg_seen};

    /// These operands.
    pub(crate) fn of(list: Vec<Arg<'a>>) -> Args<'a>
        ensures { result ≡ map arg_seen list.entry.items }
    {
        Args { list }
    }

    /// The operands in order.
    pub fn list(&self) -> &[Arg<'a>]
        ensures { map arg_seen result.now ≡ self.now }
    {
        self.list.as_slice()
    }
}
