//! Names, literals and the texts of templates.

ghost use Rattle.std.specs.Prelude.{◌++◌, ◌<◌, ◌+◌, ◌-◌, codes, OnOk};
ghost use Rattle.ecma_estree_writer.specs.Parts.{end};
ghost use Rattle.ecma_estree_writer.specs.Estree.{json, plain};
ghost use Rattle.ecma_estree_writer.specs.Writing.{Appends};
ghost use Rattle.ecma_estree_text.specs.Number.{digits_text, number_text};
ghost use Rattle.ecma_estree_text.specs.Quoted.{quoted, regex_text};
ghost use Rattle.swc_ecma_parser_ast.specs.Parts.{view_option};
ghost use Rattle.swc_ecma_parser_ast.specs.View.{view_big_int, view_ident, view_lit, view_meta_prop_expr, view_private_name, view_regex, view_str, view_tpl_element};
ghost use Rattle.ecma_estree_writer.specs.Parts as parts;

use crate::words::bool_word;
use crate::writer::Writer;
use std::alloc::AllocError;
use swc_ecma_parser_ast::{
    Atom, BigInt, Ident, Lit, MetaPropExpr, MetaPropKind, PrivateName, Regex, Span, Str, TplElement,
};

/// Writes a field that is a text.
fn write_text(w: &mut Writer<'_>, key: &str, text: &str) -> Result<(), AllocError>
    ensures { OnOk result (Appends w.old w.new (parts.key key.now ++ quoted text.now)) }
{
    w.key(key)?;
    w.quoted(text)
}

/// Writes a field that is `null`.
fn write_nothing(w: &mut Writer<'_>, key: &str) -> Result<(), AllocError>
    ensures { OnOk result (Appends w.old w.new (parts.key key.now ++ parts.nothing)) }
{
    w.key(key)?;
    w.nothing()
}

/// Writes a field that is the digits of a big integer literal.
fn write_digits(w: &mut Writer<'_>, key: &str, raw: &str) -> Result<(), AllocError>
    ensures { OnOk result
        (Appends w.old w.new
        (parts.key key.now ++ (codes "\"" ++ (digits_text raw.now ++ codes "\"")))) }
{
    w.key(key)?;
    w.digits(raw)
}

/// Writes a node of the given kind that has a text as its one field.
fn write_text_node(
    w: &mut Writer<'_>,
    kind: &str,
    span: Span,
    key: &str,
    text: &str,
) -> Result<(), AllocError>
    ensures { OnOk result
        (Appends w.old w.new
        (parts.node w.old.source kind.now span
        ++ (parts.key key.now ++ (quoted text.now ++ end)))) }
{
    w.open(kind, span)?;
    write_text(w, key, text)?;
    w.end()
}

/// Writes a name.
#[tactic(auto, unfolding(crate::specs::Parts::identifier))]
pub fn write_name(w: &mut Writer<'_>, name: &Ident) -> Result<(), AllocError>
    ensures { OnOk result (Appends w.old w.new (json w.old.source plain (view_ident name.now))) }
{
    w.open("Identifier", name.span)?;
    w.key("name")?;
    w.quoted(name.sym.as_str())?;
    w.end()
}

/// Writes a name, or `null`.
pub fn write_optional_name(w: &mut Writer<'_>, name: &Option<Ident>) -> Result<(), AllocError>
    ensures { OnOk result
        (Appends w.old w.new (json w.old.source plain (view_option view_ident name.now))) }
{
    match name {
        Some(name) => write_name(w, name),
        None => w.nothing(),
    }
}

/// Writes `#` and a word.
pub fn write_private_name(w: &mut Writer<'_>, name: &PrivateName) -> Result<(), AllocError>
    ensures { OnOk result
        (Appends w.old w.new (json w.old.source plain (view_private_name name.now))) }
{
    write_text_node(
        w,
        "PrivateIdentifier",
        name.span,
        "name",
        name.id.sym.as_str(),
    )
}

/// Writes a string literal.
#[tactic(auto, unfolding(crate::specs::Parts::literal))]
pub fn write_str(w: &mut Writer<'_>, literal: &Str) -> Result<(), AllocError>
    ensures { OnOk result (Appends w.old w.new (json w.old.source plain (view_str literal.now))) }
{
    w.open("Literal", literal.span)?;
    w.key("value")?;
    w.string(literal.value.as_str(), literal.raw.as_str())?;
    w.key("raw")?;
    w.quoted(literal.raw.as_str())?;
    w.end()
}

/// Writes a literal that is a word.
#[tactic(auto, unfolding(crate::specs::Parts::literal))]
fn write_word(w: &mut Writer<'_>, word: &str, span: Span) -> Result<(), AllocError>
    ensures { OnOk result
        (Appends w.old w.new (parts.literal w.old.source span word.now word.now)) }
{
    w.open("Literal", span)?;
    w.key("value")?;
    w.raw(word)?;
    w.key("raw")?;
    w.quoted(word)?;
    w.end()
}

/// Writes a number literal.
#[tactic(auto, unfolding(crate::specs::Parts::literal))]
pub fn write_number(w: &mut Writer<'_>, raw: &str, span: Span) -> Result<(), AllocError>
    ensures { OnOk result
        (Appends w.old w.new (parts.literal w.old.source span (number_text raw.now) raw.now)) }
{
    w.open("Literal", span)?;
    w.key("value")?;
    w.number(raw)?;
    w.key("raw")?;
    w.quoted(raw)?;
    w.end()
}

/// Writes a big integer literal. JSON has no such numbers, so its value is `null`.
#[tactic(auto, unfolding(crate::specs::Parts::big_literal))]
pub fn write_big_int(w: &mut Writer<'_>, literal: &BigInt) -> Result<(), AllocError>
    ensures { OnOk result
        (Appends w.old w.new (json w.old.source plain (view_big_int literal.now))) }
{
    w.open("Literal", literal.span)?;
    write_nothing(w, "value")?;
    write_text(w, "raw", literal.raw.as_str())?;
    write_digits(w, "bigint", literal.raw.as_str())?;
    w.end()
}

/// Writes the value of a regular expression, for which JSON has no form, and how it is written.
fn write_regex_value(w: &mut Writer<'_>, literal: &Regex) -> Result<(), AllocError>
    ensures { OnOk result
        (Appends w.old w.new
        (parts.key (codes "value") ++ (codes "{}" ++ (parts.key (codes "raw")
        ++ quoted (regex_text literal.now.exp literal.now.flags))))) }
{
    w.key("value")?;
    w.raw("{}")?;
    w.key("raw")?;
    w.regex(literal.exp.as_str(), literal.flags.as_str())
}

/// Writes the parts of a regular expression.
fn write_regex_parts(w: &mut Writer<'_>, literal: &Regex) -> Result<(), AllocError>
    ensures { OnOk result
        (Appends w.old w.new
        (parts.key (codes "regex") ++ (parts.first_key (codes "pattern") ++ (quoted literal.now.exp
        ++ (parts.key (codes "flags") ++ (quoted literal.now.flags ++ end)))))) }
{
    w.key("regex")?;
    w.first_key("pattern")?;
    w.quoted(literal.exp.as_str())?;
    write_text(w, "flags", literal.flags.as_str())?;
    w.end()
}

/// Writes a regular expression.
#[tactic(auto, unfolding(crate::specs::Parts::regex_literal))]
pub fn write_regex(w: &mut Writer<'_>, literal: &Regex) -> Result<(), AllocError>
    ensures { OnOk result (Appends w.old w.new (json w.old.source plain (view_regex literal.now))) }
{
    w.open("Literal", literal.span)?;
    write_regex_value(w, literal)?;
    write_regex_parts(w, literal)?;
    w.end()
}

/// Writes a text, or `null`.
fn write_optional_text(w: &mut Writer<'_>, text: &Option<Atom>) -> Result<(), AllocError>
    ensures { OnOk result (Appends w.old w.new (parts.optional_text text.now)) }
{
    match text {
        Some(text) => w.quoted(text.as_str()),
        None => w.nothing(),
    }
}

/// Writes how a text of a template is written, and what it says.
fn write_element_value(w: &mut Writer<'_>, element: &TplElement) -> Result<(), AllocError>
    ensures { OnOk result
        (Appends w.old w.new
        (parts.key (codes "value") ++ (parts.first_key (codes "raw") ++ (quoted element.now.raw
        ++ (parts.key (codes "cooked") ++ (parts.optional_text element.now.cooked ++ end)))))) }
{
    w.key("value")?;
    w.first_key("raw")?;
    w.quoted(element.raw.as_str())?;
    w.key("cooked")?;
    write_optional_text(w, &element.cooked)?;
    w.end()
}

/// Writes a text of a template, which stands between its marks.
#[tactic(auto, unfolding(crate::specs::Parts::template_element))]
pub fn write_template_element(w: &mut Writer<'_>, element: &TplElement) -> Result<(), AllocError>
    ensures { OnOk result
        (Appends w.old w.new (json w.old.source plain (view_tpl_element element.now))) }
{
    let start = element.span.lo.0 as usize + 1;
    let mark_len = if element.tail { 1 } else { 2 };
    let end = (element.span.hi.0 as usize).saturating_sub(mark_len);
    w.open_at("TemplateElement", start, end)?;
    write_element_value(w, element)?;
    w.flag("tail", element.tail)?;
    w.end()
}

/// Writes a literal.
pub fn write_literal(w: &mut Writer<'_>, literal: &Lit) -> Result<(), AllocError>
    ensures { OnOk result (Appends w.old w.new (json w.old.source plain (view_lit literal.now))) }
{
    match literal {
        Lit::Str(x) => write_str(w, x),
        Lit::Bool(x) => write_word(w, bool_word(x.value), x.span),
        Lit::Null(x) => write_word(w, "null", x.span),
        Lit::Num(x) => write_number(w, x.raw.as_str(), x.span),
        Lit::BigInt(x) => write_big_int(w, x),
        Lit::Regex(x) => write_regex(w, x),
    }
}

/// Writes a word of the language as a name.
#[tactic(auto, unfolding(crate::specs::Parts::word_name))]
fn write_word_name(
    w: &mut Writer<'_>,
    word: &str,
    start: usize,
    end: usize,
) -> Result<(), AllocError>
    ensures { OnOk result (Appends w.old w.new (parts.word_name w.old.source word.now start end)) }
{
    w.open_at("Identifier", start, end)?;
    w.word("name", word)?;
    w.end()
}

/// Writes two words of the language with a point between them, of so many bytes.
fn write_words(
    w: &mut Writer<'_>,
    span: Span,
    first: &str,
    first_len: usize,
    second: &str,
    second_len: usize,
) -> Result<(), AllocError>
    requires { first_len < 100 }
    ensures { OnOk result
        (Appends w.old w.new
        (parts.node w.old.source (codes "MetaProperty") span ++ (parts.key (codes "meta")
        ++ (parts.word_name w.old.source first.now span.lo.0 (span.lo.0 + first_len) ++ (parts.key (codes "property")
        ++ (parts.word_name w.old.source second.now (span.hi.0 - second_len) span.hi.0 ++ parts.end)))))) }
{
    let start = span.lo.0 as usize;
    let end = span.hi.0 as usize;
    w.open("MetaProperty", span)?;
    w.key("meta")?;
    write_word_name(w, first, start, start + first_len)?;
    w.key("property")?;
    write_word_name(w, second, end.saturating_sub(second_len), end)?;
    w.end()
}

/// Writes `import.meta` or `new.target`.
pub fn write_meta(w: &mut Writer<'_>, meta: &MetaPropExpr) -> Result<(), AllocError>
    ensures { OnOk result
        (Appends w.old w.new (json w.old.source plain (view_meta_prop_expr meta.now))) }
{
    match meta.kind {
        MetaPropKind::ImportMeta => write_words(w, meta.span, "import", 6, "meta", 4),
        MetaPropKind::NewTarget => write_words(w, meta.span, "new", 3, "target", 6),
    }
}
