//! A writer: what is written, and a stack of what is yet to be written.

ghost use Rattle.std.specs.Prelude.{◌≡◌, ◌++◌, [], OnOk, IfOk, MatchOption, codes, length};
ghost use Rattle.ecma_estree_text.specs.Bracket.{bracket};
ghost use Rattle.ecma_estree_text.specs.Number.{digits_text, number_text};
ghost use Rattle.ecma_estree_text.specs.Quoted.{inner_quoted, quoted, regex_text};
ghost use Rattle.ecma_estree_text.specs.Strings.{string_text};
ghost use Rattle.ecma_estree_writer.specs.Parts as parts;
ghost use Rattle.ecma_estree_writer.specs.Work.{work_text};
ghost use Rattle.ecma_estree_writer.specs.Writing.{Appends, Pushes};

use crate::words::bool_word;
use crate::work::Work;
use ecma_estree_text::{
    Places, find, push_digits, push_inner, push_number, push_quoted, push_regex, push_string,
};
use std::alloc::{AllocError, Global};
use std::marker::Model;
use swc_ecma_parser_ast::Span;

/// What is written of a tree, and what is yet to be written of it. Contracts see what it is written from, what is written, and what is yet to
/// be written as text.
#[derive(Drop)]
pub struct Writer<'a> {
    places: &'a Places<'a>,
    fields: &'a [u8],
    out: Vec<u8>,
    work: Vec<Work<'a>>,
}

impl<'a> Model for Writer<'a> {
    ghost use Rattle.ecma_estree_writer.specs.Writing.{Writing};
    ghost use Rattle.ecma_estree_writer.specs.Work.{pending};

    ghost Value = { Writing };

    ghost view = { λ w. record {
      source = record { places = w.places.now; fields = w.fields.now };
      written = w.out.items;
      pending = pending (record { places = w.places.now; fields = w.fields.now }) w.work.items;
    } };
}

impl<'a> Writer<'a> {
    /// A writer over the places of a text that goes on behind what is written. `fields` stand behind the other fields of a script or module.
    pub fn new(alloc: Global, out: Vec<u8>, places: &'a Places<'a>, fields: &'a [u8]) -> Writer<'a>
        ensures source { result.source ≡ record { places = places.now; fields = fields.now } }
        ensures written { result.written ≡ out.items }
        ensures pending { result.pending ≡ [] }
    {
        Writer {
            places,
            fields,
            out,
            work: Vec::new(alloc),
        }
    }

    /// What is written.
    pub fn into_out(self) -> Vec<u8>
        ensures { result.items ≡ self.entry.written }
    {
        let Writer { out, .. } = self;
        out
    }

    /// The length of the text in bytes.
    pub fn text_len(&self) -> usize
        ensures { result ≡ length self.now.source.places.text }
    {
        self.places.text().len()
    }

    /// Where a bracket stands from an offset on, in no comment.
    pub fn find(&self, mark: u8, from: usize) -> usize
        ensures { result ≡ bracket self.now.source.places.text mark from }
    {
        find(self.places.text(), mark, from)
    }

    /// Lays work upon the stack: it is done before what lies there.
    #[tactic(auto, using(crate::proofs::Pending::pending_push))]
    pub fn push(&mut self, work: Work<'a>) -> Result<(), AllocError>
        ensures { OnOk result (Pushes self.old self.new (work_text self.old.source work.entry)) }
    {
        self.work.push(work)?;
        Ok(())
    }

    /// Takes work from the stack.
    #[tactic(auto, using(crate::proofs::Pending::pending_push))]
    pub fn pop(&mut self) -> Option<Work<'a>>
        ensures { MatchOption result ((self.old.pending ≡ []) × (self.new ≡ self.old))
            (λ work. Pushes self.new self.old (work_text self.old.source work)) }
    {
        self.work.pop()
    }

    /// Writes how a node begins.
    #[tactic(auto, unfolding(crate::specs::Parts::node_at))]
    pub fn open_at(&mut self, kind: &str, start: usize, end: usize) -> Result<(), AllocError>
        ensures { OnOk result
            (Appends self.old self.new (parts.node_at self.old.source kind.now start end)) }
    {
        self.out.extend_from_slice(b"{\"type\":\"")?;
        self.out.extend_from_slice(kind.as_bytes())?;
        self.out.extend_from_slice(b"\",")?;
        self.places.push_fields(&mut self.out, start, end)
    }

    /// Writes how a node begins.
    pub fn open(&mut self, kind: &str, span: Span) -> Result<(), AllocError>
        ensures { OnOk result
            (Appends self.old self.new (parts.node self.old.source kind.now span)) }
    {
        self.open_at(kind, span.lo.0 as usize, span.hi.0 as usize)
    }

    /// Writes a node without fields.
    pub fn leaf(&mut self, kind: &str, span: Span) -> Result<(), AllocError>
        ensures { OnOk result
            (Appends self.old self.new (parts.node self.old.source kind.now span ++ parts.end)) }
    {
        self.open(kind, span)?;
        self.end()
    }

    /// Writes how a field begins.
    #[tactic(auto, unfolding(crate::specs::Parts::key))]
    pub fn key(&mut self, name: &str) -> Result<(), AllocError>
        ensures { OnOk result (Appends self.old self.new (parts.key name.now)) }
    {
        self.out.extend_from_slice(b",\"")?;
        self.out.extend_from_slice(name.as_bytes())?;
        self.out.extend_from_slice(b"\":")
    }

    /// Writes how an object begins that is no node, up to the value of its first field.
    #[tactic(auto, unfolding(crate::specs::Parts::first_key))]
    pub fn first_key(&mut self, name: &str) -> Result<(), AllocError>
        ensures { OnOk result (Appends self.old self.new (parts.first_key name.now)) }
    {
        self.out.extend_from_slice(b"{\"")?;
        self.out.extend_from_slice(name.as_bytes())?;
        self.out.extend_from_slice(b"\":")
    }

    /// Writes how a field begins that is a list.
    pub fn list_key(&mut self, name: &str) -> Result<(), AllocError>
        ensures { OnOk result (Appends self.old self.new (parts.key name.now ++ parts.open_list)) }
    {
        self.key(name)?;
        self.open_list()
    }

    /// Writes a field that is a word.
    #[tactic(auto, unfolding(crate::specs::Parts::word_field))]
    pub fn word(&mut self, name: &str, word: &str) -> Result<(), AllocError>
        ensures { OnOk result (Appends self.old self.new (parts.word_field name.now word.now)) }
    {
        self.key(name)?;
        self.out.extend_from_slice(b"\"")?;
        self.out.extend_from_slice(word.as_bytes())?;
        self.out.extend_from_slice(b"\"")
    }

    /// Writes a field that is true or false.
    #[tactic(auto, unfolding(crate::specs::Parts::bool_field))]
    pub fn flag(&mut self, name: &str, value: bool) -> Result<(), AllocError>
        ensures { OnOk result (Appends self.old self.new (parts.bool_field name.now value)) }
    {
        self.key(name)?;
        self.out.extend_from_slice(bool_word(value).as_bytes())
    }

    /// Writes the end of a node.
    #[tactic(auto, unfolding(crate::specs::Parts::end))]
    pub fn end(&mut self) -> Result<(), AllocError>
        ensures { OnOk result (Appends self.old self.new parts.end) }
    {
        self.out.extend_from_slice(b"}")
    }

    /// Writes the start of a list.
    #[tactic(auto, unfolding(crate::specs::Parts::open_list))]
    pub fn open_list(&mut self) -> Result<(), AllocError>
        ensures { OnOk result (Appends self.old self.new parts.open_list) }
    {
        self.out.extend_from_slice(b"[")
    }

    /// Writes the end of a list.
    #[tactic(auto, unfolding(crate::specs::Parts::end_list))]
    pub fn end_list(&mut self) -> Result<(), AllocError>
        ensures { OnOk result (Appends self.old self.new parts.end_list) }
    {
        self.out.extend_from_slice(b"]")
    }

    /// Writes `null`.
    #[tactic(auto, unfolding(crate::specs::Parts::nothing))]
    pub fn nothing(&mut self) -> Result<(), AllocError>
        ensures { OnOk result (Appends self.old self.new parts.nothing) }
    {
        self.out.extend_from_slice(b"null")
    }

    /// Writes a comma, but before the first part of a list.
    #[tactic(auto, unfolding(crate::specs::Parts::comma))]
    pub fn comma(&mut self, is_first: bool) -> Result<(), AllocError>
        ensures { OnOk result (Appends self.old self.new (parts.comma is_first)) }
    {
        if is_first {
            return Ok(());
        }
        self.out.extend_from_slice(b",")
    }

    /// Writes a text as a JSON string.
    pub fn quoted(&mut self, text: &str) -> Result<(), AllocError>
        ensures { OnOk result (Appends self.old self.new (quoted text.now)) }
    {
        push_quoted(&mut self.out, text)
    }

    /// Writes the value of a string literal, which is given with what was written, as a JSON string.
    pub fn string(&mut self, value: &str, raw: &str) -> Result<(), AllocError>
        ensures { OnOk result (Appends self.old self.new (string_text value.now raw.now)) }
    {
        push_string(&mut self.out, value, raw)
    }

    /// Writes a regular expression as a JSON string, by what stands between its slashes and its flags.
    pub fn regex(&mut self, exp: &str, flags: &str) -> Result<(), AllocError>
        ensures { OnOk result (Appends self.old self.new (quoted (regex_text exp.now flags.now))) }
    {
        push_regex(&mut self.out, exp, flags)
    }

    /// Writes what stands between the quotes of a string literal, as a JSON string.
    pub fn inner(&mut self, raw: &str) -> Result<(), AllocError>
        ensures { OnOk result (Appends self.old self.new (inner_quoted raw.now)) }
    {
        push_inner(&mut self.out, raw)
    }

    /// Writes the value of a number literal.
    pub fn number(&mut self, raw: &str) -> Result<(), AllocError>
        ensures { OnOk result (Appends self.old self.new (number_text raw.now)) }
    {
        push_number(&mut self.out, raw)
    }

    /// Writes the digits of a big integer literal, in quotes.
    pub fn digits(&mut self, raw: &str) -> Result<(), AllocError>
        ensures { OnOk result
            (Appends self.old self.new (codes "\"" ++ (digits_text raw.now ++ codes "\""))) }
    {
        self.out.extend_from_slice(b"\"")?;
        push_digits(&mut self.out, raw)?;
        self.out.extend_from_slice(b"\"")
    }

    /// Writes the fields that stand behind the others of a script or module.
    pub fn further_fields(&mut self) -> Result<(), AllocError>
        ensures { OnOk result (Appends self.old self.new self.old.source.fields) }
    {
        self.out.extend_from_slice(self.fields)
    }

    /// Writes a word or a literal as its text.
    pub fn raw(&mut self, text: &str) -> Result<(), AllocError>
        ensures { OnOk result (Appends self.old self.new text.now) }
    {
        self.out.extend_from_slice(text.as_bytes())
    }
}
