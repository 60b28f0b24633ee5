//! Exports of declarations and of defaults: ECMA-262, section 16.2.3.

ghost use Rattle.std.specs.Prelude.{◌≡◌};
ghost use Rattle.swc_ecma_parser_grammar.specs.language.Items.{nested_item};
ghost use Rattle.swc_ecma_parser_grammar.specs.language.Goals.{left_side};
ghost use Rattle.swc_ecma_parser_shared.specs.Keys.{word_of};
ghost use Rattle.swc_ecma_parser_module_reader.specs.Exports as exports;
ghost use Rattle.swc_ecma_parser_reader.specs.Members as members;
ghost use Rattle.swc_ecma_parser_reader.specs.Reader as rules;
ghost use Rattle.swc_ecma_parser_reader.specs.State.{GivesAs};
ghost use Rattle.swc_ecma_parser_trees.specs.Parts.{part_of};

use crate::inner::{Objects, inner_expr};
use swc_ecma_parser_classes::class::NamedClass;
use swc_ecma_parser_common::Span;
use swc_ecma_parser_cursor::{Cursor, Wanted};
use swc_ecma_parser_error::PResult;
use swc_ecma_parser_functions::function::{Manner, function_word, star};
use swc_ecma_parser_knot::knot::{
    declared_class, declared_function, inner_class, inner_declaration_end, inner_declarators,
    inner_function,
};
use swc_ecma_parser_model::{Ident, VarDeclKind};
use swc_ecma_parser_modules::exports::{
    default_from, export_names, export_star, is_default_from, is_name_from, name_from,
};
use swc_ecma_parser_shared::steps::{grown, since, with_in};
use swc_ecma_parser_token::TokenKind;
use swc_ecma_parser_trees::{BuildsExport, BuildsStatements, BuildsVarDecl, MakerOf};

/// The name of a function that is exported by default, which is read in the code around, if there is one.
#[tactic(auto, unfolding(swc_ecma_parser_module_reader::specs::Exports::default_name, swc_ecma_parser_reader::specs::Reader::named))]
pub(crate) fn default_name<P: Cursor>(p: &mut P) -> PResult<Option<Ident>>
    ensures { GivesAs (part_of word_of) (exports.default_name (P.seen p.old)) result
        (P.seen p.new) }
{
    if !p.name_at() {
        return Ok(None);
    }
    let name = p.name(Wanted::Name)?;
    Ok(Some(name))
}

/// A function that is exported by default.
#[tactic(auto, unfolding(swc_ecma_parser_module_reader::specs::Exports::default_function))]
fn default_function<P: Cursor, T: BuildsStatements + BuildsExport>(
    t: &MakerOf<T>,
    p: &mut P,
    depth: usize,
) -> PResult<T::DefaultDecl>
    ensures { GivesAs T.default_decl_of
        (exports.default_function (rules.stmt depth nested_item) (rules.parameters depth)
        (P.seen p.old)) result (P.seen p.new) }
{
    let start = p.span();
    let is_async = function_word(p)?;
    let is_generator = star(p)?;
    let manner = Manner {
        is_async,
        is_generator,
    };
    let name = default_name(p)?;
    let function = inner_function::<P, T>(t, p, depth, manner, start)?;
    let span = T::function_span(&function);
    grown(p, T::default_fn(t.alloc, span, name, function))
}

/// An export of such a function, from it on.
#[tactic(auto, unfolding(swc_ecma_parser_module_reader::specs::Exports::exported_function))]
fn exported_function<P: Cursor, T: BuildsStatements + BuildsExport>(
    t: &MakerOf<T>,
    p: &mut P,
    depth: usize,
    start: Span,
) -> PResult<T::Item>
    ensures { GivesAs T.item_of
        (exports.exported_function (rules.stmt depth nested_item) (rules.expr depth)
        (rules.pattern depth) (rules.parameters depth) (rules.member depth) start (P.seen p.old))
        result (P.seen p.new) }
{
    let decl = default_function::<P, T>(t, p, depth)?;
    let span = since(p, start);
    grown(p, T::export_default_decl(t.alloc, span, decl))
}

/// A class that is exported by default, which is read as an expression: its name may be missing too.
fn default_class<P: Cursor, T: BuildsStatements + BuildsExport>(
    t: &MakerOf<T>,
    p: &mut P,
    depth: usize,
) -> PResult<T::DefaultDecl>
    ensures { GivesAs T.default_decl_of
        (members.class_expr (rules.expr depth left_side) (rules.member depth) (P.seen p.old)) result
        (P.seen p.new) }
{
    let NamedClass { name, class } = inner_class::<P, T>(t, p, depth)?;
    let span = T::class_span(&class);
    grown(p, T::default_class(t.alloc, span, name, class))
}

/// An export of such a class, from it on.
#[tactic(auto, unfolding(swc_ecma_parser_module_reader::specs::Exports::exported_class))]
fn exported_class<P: Cursor, T: BuildsStatements + BuildsExport>(
    t: &MakerOf<T>,
    p: &mut P,
    depth: usize,
    start: Span,
) -> PResult<T::Item>
    ensures { GivesAs T.item_of
        (exports.exported_class (rules.stmt depth nested_item) (rules.expr depth)
        (rules.pattern depth) (rules.parameters depth) (rules.member depth) start (P.seen p.old))
        result (P.seen p.new) }
{
    let decl = default_class::<P, T>(t, p, depth)?;
    let span = since(p, start);
    grown(p, T::export_default_decl(t.alloc, span, decl))
}

/// An export of an expression by default, from it on.
#[tactic(auto, unfolding(swc_ecma_parser_module_reader::specs::Exports::default_expr))]
fn default_expr<P: Cursor, T: BuildsStatements + BuildsExport>(
    t: &MakerOf<T>,
    p: &mut P,
    depth: usize,
    start: Span,
) -> PResult<T::Item>
    ensures { GivesAs T.item_of (exports.default_expr (rules.expr depth) start (P.seen p.old))
        result (P.seen p.new) }
{
    let expr = inner_expr::<P, T>(t, p, depth)?;
    p.end(Wanted::Token(";"))?;
    let span = since(p, start);
    grown(p, T::export_default_expr(t.alloc, span, expr))
}

/// Whether a function begins here.
#[tactic(auto, unfolding(swc_ecma_parser_module_reader::specs::Exports::begins_default_function))]
pub(crate) fn begins_function<P: Cursor>(p: &P) -> bool
    ensures { result ≡ exports.begins_default_function (P.seen p.now).at }
{
    p.sees(TokenKind::Function) || p.is_async_function()
}

/// An export of a default that is neither a class nor a function, from behind its words on, the last of which stands at `first`.
#[tactic(auto, unfolding(swc_ecma_parser_module_reader::specs::Exports::default_rest))]
pub(crate) fn default_rest<P: Cursor, T: BuildsStatements + BuildsExport>(
    t: &MakerOf<T>,
    p: &mut P,
    depth: usize,
    start: Span,
    first: Span,
) -> PResult<T::Item>
    ensures { GivesAs T.item_of
        (exports.default_rest (rules.stmt depth nested_item) (rules.expr depth)
        (rules.pattern depth) (rules.parameters depth) (rules.member depth)
        (rules.object_alone depth) start first (P.seen p.old)) result (P.seen p.new) }
{
    if is_default_from(p) {
        return default_from::<P, T, Objects>(t, p, depth, start, first);
    }
    default_expr::<P, T>(t, p, depth, start)
}

/// An export of a default, from behind its words on, the last of which stands at `first`.
#[tactic(auto, unfolding(swc_ecma_parser_module_reader::specs::Exports::export_default))]
pub(crate) fn export_default<P: Cursor, T: BuildsStatements + BuildsExport>(
    t: &MakerOf<T>,
    p: &mut P,
    depth: usize,
    start: Span,
    first: Span,
) -> PResult<T::Item>
    ensures { GivesAs T.item_of
        (exports.export_default (rules.stmt depth nested_item) (rules.expr depth)
        (rules.pattern depth) (rules.parameters depth) (rules.member depth)
        (rules.object_alone depth) start first (P.seen p.old)) result (P.seen p.new) }
{
    if p.sees(TokenKind::Class) {
        return exported_class::<P, T>(t, p, depth, start);
    }
    if begins_function(p) {
        return exported_function::<P, T>(t, p, depth, start);
    }
    default_rest::<P, T>(t, p, depth, start, first)
}

/// An export of variables, from their word on.
#[tactic(auto, unfolding(swc_ecma_parser_module_reader::specs::Exports::exported, swc_ecma_parser_reader::specs::Reader::variables, swc_ecma_parser_grammar::specs::Looks::spanned))]
fn exported_variables<P: Cursor, T: BuildsStatements + BuildsExport + BuildsVarDecl>(
    t: &MakerOf<T>,
    p: &mut P,
    depth: usize,
    start: Span,
    word: VarDeclKind,
) -> PResult<T::Item>
    ensures { GivesAs T.item_of
        (exports.exported (rules.stmt depth nested_item) (rules.expr depth) (rules.pattern depth)
        (rules.parameters depth) (rules.member depth) start
        (rules.variables (rules.expr depth) (rules.pattern depth) word) (P.seen p.old)) result
        (P.seen p.new) }
{
    let first = p.span();
    p.skip()?;
    let outer = p.flags();
    p.set_flags(with_in(outer));
    let found = inner_declarators::<P, T>(t, p, depth, word)?;
    p.set_flags(outer);
    inner_declaration_end::<P, T>(t, p, depth)?;
    let span = since(p, first);
    let decl = grown(p, T::var_decl(t.alloc, span, word, found))?;
    let span = since(p, start);
    grown(p, T::export_decl(t.alloc, span, decl))
}

/// An export of a function, from it on.
#[tactic(auto, unfolding(swc_ecma_parser_module_reader::specs::Exports::exported))]
fn exported_decl<P: Cursor, T: BuildsStatements + BuildsExport>(
    t: &MakerOf<T>,
    p: &mut P,
    depth: usize,
    start: Span,
) -> PResult<T::Item>
    ensures { GivesAs T.item_of
        (exports.exported (rules.stmt depth nested_item) (rules.expr depth) (rules.pattern depth)
        (rules.parameters depth) (rules.member depth) start
        (rules.function_decl (rules.stmt depth nested_item) (rules.parameters depth))
        (P.seen p.old)) result (P.seen p.new) }
{
    let decl = declared_function::<P, T>(t, p, depth)?;
    let span = since(p, start);
    grown(p, T::export_decl(t.alloc, span, decl))
}

/// An export of a class, from it on.
#[tactic(auto, unfolding(swc_ecma_parser_module_reader::specs::Exports::exported))]
fn exported_class_decl<P: Cursor, T: BuildsStatements + BuildsExport>(
    t: &MakerOf<T>,
    p: &mut P,
    depth: usize,
    start: Span,
) -> PResult<T::Item>
    ensures { GivesAs T.item_of
        (exports.exported (rules.stmt depth nested_item) (rules.expr depth) (rules.pattern depth)
        (rules.parameters depth) (rules.member depth) start
        (members.class_decl (rules.expr depth left_side) (rules.member depth)) (P.seen p.old))
        result (P.seen p.new) }
{
    let decl = declared_class::<P, T>(t, p, depth)?;
    let span = since(p, start);
    grown(p, T::export_decl(t.alloc, span, decl))
}

/// An export of what is neither a class nor a function, from behind its word on.
#[tactic(auto, unfolding(swc_ecma_parser_module_reader::specs::Exports::export_rest))]
pub(crate) fn export_rest<P: Cursor, T: BuildsStatements + BuildsExport + BuildsVarDecl>(
    t: &MakerOf<T>,
    p: &mut P,
    depth: usize,
    start: Span,
) -> PResult<T::Item>
    ensures { GivesAs T.item_of
        (exports.export_rest (rules.stmt depth nested_item) (rules.expr depth) (rules.pattern depth)
        (rules.parameters depth) (rules.member depth) (rules.object_alone depth) start
        (P.seen p.old)) result (P.seen p.new) }
{
    if p.sees(TokenKind::LBrace) {
        return export_names::<P, T, Objects>(t, p, depth, start);
    }
    if p.sees(TokenKind::Mul) {
        return export_star::<P, T, Objects>(t, p, depth, start);
    }
    if p.sees(TokenKind::Var) {
        return exported_variables::<P, T>(t, p, depth, start, VarDeclKind::Var);
    }
    if p.sees(TokenKind::Const) {
        return exported_variables::<P, T>(t, p, depth, start, VarDeclKind::Const);
    }
    if p.is_let_declaration() {
        return exported_variables::<P, T>(t, p, depth, start, VarDeclKind::Let);
    }
    if is_name_from(p) {
        return name_from::<P, T, Objects>(t, p, depth, start);
    }
    Err(p.refuse(Wanted::Token("{")))
}

/// An export that is no default, from behind its word on.
#[tactic(auto, unfolding(swc_ecma_parser_module_reader::specs::Exports::export_named))]
pub(crate) fn export_named<P: Cursor, T: BuildsStatements + BuildsExport + BuildsVarDecl>(
    t: &MakerOf<T>,
    p: &mut P,
    depth: usize,
    start: Span,
) -> PResult<T::Item>
    ensures { GivesAs T.item_of
        (exports.export_named (rules.stmt depth nested_item) (rules.expr depth)
        (rules.pattern depth) (rules.parameters depth) (rules.member depth)
        (rules.object_alone depth) start (P.seen p.old)) result (P.seen p.new) }
{
    if p.sees(TokenKind::Class) {
        return exported_class_decl::<P, T>(t, p, depth, start);
    }
    if begins_function(p) {
        return exported_decl::<P, T>(t, p, depth, start);
    }
    export_rest::<P, T>(t, p, depth, start)
}
