//! The first pass: where each statement stands, and the values of the names.
ghost use Rattle.std.specs.Prelude.{◌≡◌, ◌≤◌, ◌<◌};
ghost use Rattle.asm_layout.specs.Layout.{is_start};
ghost use Rattle.asm_layout.specs.Limits.{place_limit, section_limit};

use crate::action::{Action, read_action};
use crate::content::Content;
use crate::names::Names;
use crate::section::{SECTION_LIMIT, Section};
use crate::value::defined;
use asm_parse::{AsmLine, AsmWhy, Expression, Name, parse_line};
use line_text::{Failure, Line, TextFailure, at_line};
use std::alloc::Global;

/// What a statement puts, and where.
#[derive(Drop)]
pub struct Placed<'a> {
    /// The statement's line.
    pub line: u32,
    /// The section.
    pub section: Section,
    /// The address of the statement.
    pub place: u32,
    /// Whether its label is `start`.
    pub is_start: bool,
    /// What it puts.
    pub content: Content<'a>,
    ghost low: { place < place_limit },
}

/// How far the first pass has come.
#[derive(Drop)]
pub struct Layout<'a> {
    /// The section to which statements are added.
    pub section: Section,
    /// How many bytes the text has.
    pub text: u32,
    /// How many bytes the data has.
    pub data_bytes: u32,
    /// The labels and the names of `.equ`.
    pub names: Names,
    /// The address of the label `start`.
    pub start: Option<u32>,
    /// The statements in order.
    pub placed: Vec<Placed<'a>>,
    ghost text_fits: { text ≤ section_limit },
    ghost data_fits: { data_bytes ≤ section_limit },
}

/// The largest power of 2 to which `.align` goes.
const LARGEST_ALIGNMENT: u32 = 12;

impl<'a> Layout<'a> {
    ghost use Rattle.std.specs.Prelude.{◌≡◌, ◌+◌, ◌≤◌, ◌<◌, ◌^◌, None, length};
    ghost use Rattle.line_text.specs.Failing.{Gives};
    ghost use Rattle.asm_parse.specs.Seen.{expression_seen};
    ghost use Rattle.asm_layout.specs.Layout.{acted, appended, equated, is_start, labelled, line_added, nothing_placed, padded, place_of, put, stated, used_by};
    ghost use Rattle.asm_layout.specs.Content.{content_length};
    ghost use Rattle.asm_layout.specs.Limits.{place_limit, section_limit};
    ghost use Rattle.line_text.specs.LineView.{line_value};
    ghost use Rattle.asm_layout.specs.Seen.{action_seen, content_seen, layout_seen};

    /// No lines yet.
    pub(crate) fn new(alloc: Global) -> Layout<'a>
        ensures { layout_seen result ≡ nothing_placed }
    {
        Layout {
            section: Section::Text,
            text: 0,
            data_bytes: 0,
            names: Names::new(alloc),
            start: None,
            placed: Vec::new(alloc),
        }
    }

    /// How many bytes the section has, to which statements are added.
    fn used(&self) -> u32
        ensures value { result ≡ used_by self.now.section (layout_seen self.now) }
        ensures within { result ≤ section_limit }
    {
        match self.section {
            Section::Text => self.text,
            Section::Data => self.data_bytes,
        }
    }

    /// The address at which the next statement stands.
    fn place(&self) -> u32
        ensures value { result ≡ place_of (layout_seen self.now) }
        ensures low { result < place_limit }
    {
        self.section.base() + self.used()
    }

    /// Adds what a line says.
    #[tactic(auto, using(crate::proofs::LineLemmas::statement_gives))]
    pub(crate) fn add(&mut self, alloc: Global, line: &Line<'a>) -> Result<(), TextFailure<AsmWhy>>
        requires { line.now.start + length line.now.text.now < 2 ^ 32 }
        ensures { Gives (λ _. layout_seen self.new) result (line_added (line_value line.now) (layout_seen self.old)) }
    {
        match parse_line(alloc, line)? {
            Some(statement) => at_line(statement.line, self.state(alloc, &statement)),
            None => Ok(()),
        }
    }

    /// Reads a statement's operation, gives its label a value, and does what it asks for.
    #[tactic(auto, unfolding(crate::specs::Layout::stated))]
    fn state(&mut self, alloc: Global, statement: &AsmLine<'a>) -> Result<(), Failure<AsmWhy>>
        ensures { Gives (λ _. layout_seen self.new) result (stated statement.now (layout_seen self.old)) }
    {
        let action = read_action(alloc, self.section, &statement.body)?;
        self.label(alloc, &statement.label)?;
        self.act(alloc, statement.line, is_start(&statement.label), action)
    }

    /// Gives a label the address of its statement.
    fn label(&mut self, alloc: Global, label: &Option<Name>) -> Result<(), Failure<AsmWhy>>
        ensures { Gives (λ _. layout_seen self.new) result (labelled label.now (layout_seen self.old)) }
    {
        let Some(name) = label else {
            return Ok(());
        };
        if self.names.value(name.bytes()).is_some() {
            return Err(Failure::Fault(AsmWhy::Redefined));
        }
        let place = self.place();
        self.names.add(alloc, name.bytes(), place)?;
        if is_start(label) {
            self.start = Some(place);
        }
        Ok(())
    }

    /// Does what a statement asks for.
    #[tactic(auto, unfolding(crate::specs::Layout::acted))]
    fn act(
        &mut self,
        alloc: Global,
        line: u32,
        is_start: bool,
        action: Action<'a>,
    ) -> Result<(), Failure<AsmWhy>>
        ensures { Gives (λ _. layout_seen self.new) result (acted line is_start (action_seen action.entry) (layout_seen self.old)) }
    {
        match action {
            Action::Put(content) => self.put(line, is_start, content),
            Action::Align(power) => self.align(line, is_start, power),
            Action::Enter(section) => {
                self.put(line, is_start, Content::Zeros(0))?;
                self.section = section;
                Ok(())
            }
            Action::Define(name, value) => {
                self.equate(alloc, name, value)?;
                self.put(line, is_start, Content::Zeros(0))
            }
        }
    }

    /// Puts zeros up to a multiple of a power of 2.
    fn align(&mut self, line: u32, is_start: bool, power: u32) -> Result<(), Failure<AsmWhy>>
        ensures { Gives (λ _. layout_seen self.new) result (padded line is_start power (layout_seen self.old)) }
    {
        if power > LARGEST_ALIGNMENT {
            return Err(Failure::Fault(AsmWhy::OutOfRange));
        }
        let multiple = 1 << power;
        let count = (multiple - self.place() % multiple) % multiple;
        self.put(line, is_start, Content::Zeros(count))
    }

    /// Gives a name of `.equ` the value of its expression, which has one already.
    fn equate(
        &mut self,
        alloc: Global,
        constant: &[u8],
        expression: Expression<'_>,
    ) -> Result<(), Failure<AsmWhy>>
        ensures { Gives (λ _. layout_seen self.new) result (equated constant.now (expression_seen expression.entry) (layout_seen self.old)) }
    {
        if self.names.value(constant).is_some() {
            return Err(Failure::Fault(AsmWhy::Redefined));
        }
        let value = defined(&self.names, expression)?;
        self.names.add(alloc, constant, value)?;
        Ok(())
    }

    /// Puts a content at the place, where it is aligned and the section has room.
    fn put(
        &mut self,
        line: u32,
        is_start: bool,
        content: Content<'a>,
    ) -> Result<(), Failure<AsmWhy>>
        ensures { Gives (λ _. layout_seen self.new) result (put line is_start (content_seen content.entry) (layout_seen self.old)) }
    {
        if self.place() % content.alignment() != 0 {
            return Err(Failure::Fault(AsmWhy::Unaligned));
        }
        let length = content.length();
        if length > (SECTION_LIMIT - self.used()) as usize {
            return Err(Failure::Fault(AsmWhy::OutOfRange));
        }
        self.append(line, is_start, content, length as u32)
    }

    /// Puts a content at the place.
    fn append(
        &mut self,
        line: u32,
        is_start: bool,
        content: Content<'a>,
        length: u32,
    ) -> Result<(), Failure<AsmWhy>>
        requires length { length ≡ content_length (content_seen content) }
        requires room { used_by self.old.section (layout_seen self.old) + length ≤ section_limit }
        ensures { Gives (λ _. layout_seen self.new) result (Ok (appended line is_start (content_seen content.entry) (layout_seen self.old))) }
    {
        let placed = Placed {
            line,
            section: self.section,
            place: self.place(),
            is_start,
            content,
        };
        self.placed.push(placed)?;
        match self.section {
            Section::Text => self.text += length,
            Section::Data => self.data_bytes += length,
        }
        Ok(())
    }
}

/// The name of the label at which a program begins.
const START: &[u8] = b"start";

/// Whether a label is `start`.
fn is_start(label: &Option<Name>) -> bool
    ensures { result ≡ is_start label.now }
{
    match label {
        Some(name) => name.bytes() == START,
        None => false,
    }
}
