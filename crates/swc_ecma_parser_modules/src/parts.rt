//! What imports and exports share: ECMA-262, section 16.2.

ghost use Rattle.std.specs.Prelude.{◌≡◌, true, IfOk, Some, is_some};
ghost use Rattle.swc_ecma_parser_grammar.specs.language.ModuleParts as parts;
ghost use Rattle.swc_ecma_parser_module_reader.specs.Imports as imports;
ghost use Rattle.swc_ecma_parser_modules.specs.Names.{name_of, str_of};
ghost use Rattle.swc_ecma_parser_reader.specs.Reader as rules;
ghost use Rattle.swc_ecma_parser_reader.specs.State.{GivesAs};
ghost use Rattle.swc_ecma_parser_trees.specs.Parts.{part_of};

use std::alloc::{AllocError, Global};
use swc_ecma_parser_cursor::{Cursor, Literal, Wanted};
use swc_ecma_parser_error::PResult;
use swc_ecma_parser_model::{Ident, Str};
use swc_ecma_parser_shared::keys::word_property;
use swc_ecma_parser_token::TokenKind;
use swc_ecma_parser_trees::{BuildsImport, BuildsItem, MakerOf, Trees};

/// What reads the object of attributes. It holds expressions, and so all that is read of these: its caller says how.
pub trait ObjectReader<P: Cursor, T: Trees> {
    /// An object alone, whatever stands behind it, which may take so many levels.
    fn object_alone(t: &MakerOf<T>, p: &mut P, depth: usize) -> PResult<T::Expr>
        ensures { GivesAs T.expr_of (rules.object_alone depth (P.seen p.old)) result
            (P.seen p.new) };
}

/// The name by which a module exports something: ModuleExportName.
#[derive(Drop)]
pub enum Name {
    Word(Ident),
    Str(Str),
}

/// The tree's name.
pub fn made_name<T: BuildsItem>(alloc: Global, name: Name) -> Result<T::ModuleName, AllocError>
    ensures { IfOk result (λ x. T.module_name_of x ≡ name_of name) }
{
    match name {
        Name::Word(x) => T::word_name(alloc, x),
        Name::Str(x) => T::str_name(alloc, x),
    }
}

/// A string that must stand here.
#[tactic(auto, unfolding(swc_ecma_parser_module_reader::specs::Imports::str))]
pub fn string<P: Cursor>(p: &mut P) -> PResult<Str>
    ensures { GivesAs str_of (imports.str (P.seen p.old)) result (P.seen p.new) }
{
    if !p.sees(TokenKind::Str) {
        return Err(p.wanted(Wanted::StringLiteral));
    }
    let Some(literal) = p.literal()? else {
        return Err(p.wanted(Wanted::StringLiteral));
    };
    match literal {
        Literal::Str(x) => Ok(x),
        Literal::Num(_) | Literal::BigInt(_) | Literal::Null(_) | Literal::Bool(_) => {
            Err(p.wanted(Wanted::StringLiteral))
        }
    }
}

/// From the word `from` on: where the other module is.
#[tactic(auto, unfolding(swc_ecma_parser_module_reader::specs::Imports::source))]
pub fn source<P: Cursor>(p: &mut P) -> PResult<Str>
    ensures { GivesAs str_of (imports.source (P.seen p.old)) result (P.seen p.new) }
{
    p.expect_word("from")?;
    string(p)
}

/// A name by which a module exports something.
#[tactic(auto, unfolding(swc_ecma_parser_module_reader::specs::Imports::module_name))]
pub fn module_name<P: Cursor>(p: &mut P) -> PResult<Name>
    ensures { GivesAs name_of (imports.module_name (P.seen p.old)) result (P.seen p.new) }
{
    if p.sees(TokenKind::Str) {
        return Ok(Name::Str(string(p)?));
    }
    Ok(Name::Word(word_property(p)?))
}

/// Whether attributes of an import stand here.
#[tactic(auto, unfolding(swc_ecma_parser_grammar::specs::language::ModuleParts::begins_attributes))]
fn begins_attributes<P: Cursor>(p: &P) -> bool
    ensures { result ≡ parts.begins_attributes (P.seen p.now).code (P.seen p.now).at }
{
    p.import_attributes() && !p.had_line_break() && (p.sees(TokenKind::With) || p.word_at("assert"))
}

/// What was found.
fn present<A>(found: Option<A>) -> A
    requires { is_some found ≡ true }
    ensures { found ≡ Some result }
{
    match found {
        Some(x) => x,
        None => unreachable!(),
    }
}

/// The attributes of another module, whose object may take so many levels, or none.
#[tactic(auto, unfolding(swc_ecma_parser_module_reader::specs::Imports::attributes))]
pub fn attributes<P: Cursor, T: BuildsImport, O: ObjectReader<P, T>>(
    t: &MakerOf<T>,
    p: &mut P,
    depth: usize,
) -> PResult<Option<T::Attributes>>
    ensures { GivesAs (part_of T.attributes_of)
        (imports.attributes (rules.object_alone depth) (P.seen p.old)) result (P.seen p.new) }
{
    if !begins_attributes(p) {
        return Ok(None);
    }
    p.skip()?;
    let object = O::object_alone(t, p, depth)?;
    Ok(Some(present(T::attributes(object))))
}
