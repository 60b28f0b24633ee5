//! Exports of names: ECMA-262, section 16.2.3, and the proposal of `export name from`.

ghost use Rattle.std.specs.Prelude.{◌≡◌, [], ◌∷◌, ◌++◌, map, if◌then◌else◌, IfOk, codes};
ghost use Rattle.swc_ecma_parser_error.specs.Kind as kinds;
ghost use Rattle.swc_ecma_parser_error.specs.Kind.{kind_of};
ghost use Rattle.swc_ecma_parser_grammar.specs.Follows.{word_at};
ghost use Rattle.swc_ecma_parser_grammar.specs.Own as own;
ghost use Rattle.swc_ecma_parser_model.specs.Tree as tree;
ghost use Rattle.swc_ecma_parser_model.specs.Tree.{trees};
ghost use Rattle.swc_ecma_parser_module_reader.specs.Exports as exports;
ghost use Rattle.swc_ecma_parser_module_reader.specs.Imports as imports;
ghost use Rattle.swc_ecma_parser_modules.specs.Names.{name_of};
ghost use Rattle.swc_ecma_parser_reader.specs.Jumps as rules;
ghost use Rattle.swc_ecma_parser_reader.specs.Reader as reader;
ghost use Rattle.swc_ecma_parser_reader.specs.State.{Gives, GivesAs, loop};

use crate::parts::{ObjectReader, attributes, made_name, module_name, source};
use std::alloc::{AllocError, Global};
use swc_ecma_parser_common::{Atom, Boxed, Span};
use swc_ecma_parser_cursor::{Cursor, Wanted, is_reserved_word};
use swc_ecma_parser_error::{PResult, SyntaxError};
use swc_ecma_parser_model::Ident;
use swc_ecma_parser_shared::steps::{grown, pushed, since};
use swc_ecma_parser_token::TokenKind;
use swc_ecma_parser_trees::{BuildsExport, MakerOf};

/// A name in braces, with the one that it is exported by where `as` stands.
#[tactic(auto, unfolding(swc_ecma_parser_module_reader::specs::Exports::export_specifier, swc_ecma_parser_module_reader::specs::Exports::renamed_export, swc_ecma_parser_module_reader::specs::Exports::plain_export))]
fn export_specifier<P: Cursor, T: BuildsExport>(
    t: &MakerOf<T>,
    p: &mut P,
) -> PResult<T::ExportSpecifier>
    ensures { GivesAs T.export_specifier_of (exports.export_specifier (P.seen p.old)) result
        (P.seen p.new) }
{
    let start = p.span();
    let orig = module_name(p)?;
    if p.word_at("as") {
        p.skip()?;
        let exported = module_name(p)?;
        let span = since(p, start);
        let orig = grown(p, made_name::<T>(t.alloc, orig))?;
        let exported = grown(p, made_name::<T>(t.alloc, exported))?;
        return grown(p, T::export_specifier(t.alloc, span, orig, Some(exported)));
    }
    let span = since(p, start);
    let orig = grown(p, made_name::<T>(t.alloc, orig))?;
    grown(p, T::export_specifier(t.alloc, span, orig, None))
}

/// Names in braces, up to `}`; a comma may stand behind the last.
#[tactic(auto, using(swc_ecma_parser_module_reader::proofs::Loops::specifiers_stop, swc_ecma_parser_module_reader::proofs::Loops::specifiers_more, swc_ecma_parser_module_reader::proofs::Loops::specifiers_last, swc_ecma_parser_module_reader::proofs::Loops::specifiers_err, swc_ecma_parser_module_reader::proofs::Falls::export_specifier_shorter, crate::proofs::Steps::exports_shorter, std::proofs::lemmas::List::map_push))]
fn named_exports<P: Cursor, T: BuildsExport>(
    t: &MakerOf<T>,
    p: &mut P,
) -> PResult<Vec<T::ExportSpecifier>>
    ensures { GivesAs (λ found. map T.export_specifier_of found.items)
        (loop (imports.specifiers_turn exports.export_specifier) [] (P.seen p.old)) result
        (P.seen p.new) }
{
    let mut found = Vec::new(t.alloc);
    'specifiers: loop {
        if p.sees(TokenKind::RBrace) {
            return Ok(found);
        }
        let specifier = export_specifier::<P, T>(t, p)?;
        pushed(p, &mut found, specifier)?;
        if !p.sees(TokenKind::Comma) {
            return Ok(found);
        }
        p.skip()?;
    }
}

/// Names in braces.
#[tactic(auto, unfolding(swc_ecma_parser_module_reader::specs::Imports::specifiers))]
fn specifiers<P: Cursor, T: BuildsExport>(
    t: &MakerOf<T>,
    p: &mut P,
) -> PResult<Vec<T::ExportSpecifier>>
    ensures { GivesAs (λ found. map T.export_specifier_of found.items)
        (imports.specifiers exports.export_specifier (P.seen p.old)) result (P.seen p.new) }
{
    p.expect(TokenKind::LBrace, "{")?;
    let found = named_exports::<P, T>(t, p)?;
    p.expect(TokenKind::RBrace, "}")?;
    Ok(found)
}

/// `as name`, behind `*`.
#[tactic(auto, unfolding(swc_ecma_parser_module_reader::specs::Exports::export_namespace))]
fn export_namespace<P: Cursor, T: BuildsExport>(
    t: &MakerOf<T>,
    p: &mut P,
    start: Span,
) -> PResult<T::ExportSpecifier>
    ensures { GivesAs T.export_specifier_of (exports.export_namespace start (P.seen p.old)) result
        (P.seen p.new) }
{
    p.expect_word("as")?;
    let name = module_name(p)?;
    let span = since(p, start);
    let name = grown(p, made_name::<T>(t.alloc, name))?;
    grown(p, T::export_namespace(t.alloc, span, name))
}

/// Names of another module, from the word `from` on.
#[tactic(auto, unfolding(swc_ecma_parser_module_reader::specs::Exports::names_from))]
fn names_from<P: Cursor, T: BuildsExport, O: ObjectReader<P, T>>(
    t: &MakerOf<T>,
    p: &mut P,
    depth: usize,
    start: Span,
    specifiers: Vec<T::ExportSpecifier>,
) -> PResult<T::Item>
    ensures { GivesAs T.item_of
        (exports.names_from (reader.object_alone depth) start
        (map T.export_specifier_of specifiers.items) (P.seen p.old)) result (P.seen p.new) }
{
    let src = source(p)?;
    let given = attributes::<P, T, O>(t, p, depth)?;
    p.end(Wanted::Token(";"))?;
    let span = since(p, start);
    grown(
        p,
        T::export_named(t.alloc, span, specifiers, Some(src), given),
    )
}

/// Records that a name of another module stands where no module is named.
fn foreign<P: Cursor>(alloc: Global, p: &mut P, text: &str, span: Span) -> PResult<()>
    ensures { Gives (rules.told (own.fault kinds.ExportExpectFrom span ∷ []) (P.seen p.old)) result
        (P.seen p.new) }
{
    let text = grown(p, Atom::new(alloc, text))?;
    let text = grown(p, Boxed::new(alloc, text))?;
    p.fault(SyntaxError::ExportExpectFrom(text), span)
}

/// Records that a name is none of the module itself, where it is none.
fn misnamed<P: Cursor, T: BuildsExport>(
    t: &MakerOf<T>,
    p: &mut P,
    specifier: &T::ExportSpecifier,
) -> PResult<()>
    ensures { Gives
        (rules.told (own.specifier_faults (T.export_specifier_of specifier.now)) (P.seen p.old))
        result (P.seen p.new) }
{
    let text = T::export_text(specifier);
    if T::is_export_namespace(specifier) {
        return foreign(t.alloc, p, text, T::export_span(specifier));
    }
    let span = T::export_name_span(specifier);
    if T::is_export_default(specifier) {
        return foreign(t.alloc, p, text, span);
    }
    if T::is_str_export(specifier) {
        return p.fault(SyntaxError::ExportBindingIsString, span);
    }
    if is_reserved_word(text) {
        return foreign(t.alloc, p, text, span);
    }
    Ok(())
}

/// Records which of these are no names of the module itself.
fn all_misnamed<P: Cursor, T: BuildsExport>(
    t: &MakerOf<T>,
    p: &mut P,
    specifiers: &[T::ExportSpecifier],
) -> PResult<()>
    ensures { Gives
        (rules.told (own.each_specifier (trees (map T.export_specifier_of specifiers.now)))
        (P.seen p.old)) result (P.seen p.new) }
{
    'specifiers: for specifier in specifiers {
        misnamed::<P, T>(t, p, specifier)?;
    }
    Ok(())
}

/// Names of the module itself. What is no such name is recorded before the end.
#[tactic(auto, unfolding(swc_ecma_parser_module_reader::specs::Exports::own_names))]
fn own_names<P: Cursor, T: BuildsExport>(
    t: &MakerOf<T>,
    p: &mut P,
    start: Span,
    specifiers: Vec<T::ExportSpecifier>,
) -> PResult<T::Item>
    ensures { GivesAs T.item_of
        (exports.own_names start (map T.export_specifier_of specifiers.items) (P.seen p.old)) result
        (P.seen p.new) }
{
    all_misnamed::<P, T>(t, p, &specifiers)?;
    p.end(Wanted::Token(";"))?;
    let span = since(p, start);
    grown(p, T::export_named(t.alloc, span, specifiers, None, None))
}

/// Names of another module or of this one.
fn named<P: Cursor, T: BuildsExport, O: ObjectReader<P, T>>(
    t: &MakerOf<T>,
    p: &mut P,
    depth: usize,
    start: Span,
    specifiers: Vec<T::ExportSpecifier>,
) -> PResult<T::Item>
    ensures { GivesAs T.item_of (if word_at (codes "from") (P.seen p.old).at
        then exports.names_from (reader.object_alone depth) start (map T.export_specifier_of specifiers.items) (P.seen p.old)
        else exports.own_names start (map T.export_specifier_of specifiers.items) (P.seen p.old)) result (P.seen p.new) }
{
    if p.word_at("from") {
        return names_from::<P, T, O>(t, p, depth, start, specifiers);
    }
    own_names::<P, T>(t, p, start, specifiers)
}

/// An export of names in braces.
#[tactic(auto, unfolding(swc_ecma_parser_module_reader::specs::Exports::export_names))]
pub fn export_names<P: Cursor, T: BuildsExport, O: ObjectReader<P, T>>(
    t: &MakerOf<T>,
    p: &mut P,
    depth: usize,
    start: Span,
) -> PResult<T::Item>
    ensures { GivesAs T.item_of
        (exports.export_names (reader.object_alone depth) start [] (P.seen p.old)) result
        (P.seen p.new) }
{
    let found = specifiers::<P, T>(t, p)?;
    named::<P, T, O>(t, p, depth, start, found)
}

/// Names behind those before them.
fn joined<T: BuildsExport>(
    before: Vec<T::ExportSpecifier>,
    others: Vec<T::ExportSpecifier>,
) -> Result<Vec<T::ExportSpecifier>, AllocError>
    ensures { IfOk result
        (λ all. map T.export_specifier_of all.items ≡ map T.export_specifier_of before.items
        ++ map T.export_specifier_of others.items) }
{
    let mut all = before;
    let mut others = others;
    all.append(&mut others)?;
    Ok(all)
}

/// Behind a default or a namespace of another module: with the setting names in braces, else the module.
#[tactic(auto, unfolding(swc_ecma_parser_module_reader::specs::Exports::more_names, swc_ecma_parser_module_reader::specs::Exports::export_names))]
fn more_names<P: Cursor, T: BuildsExport, O: ObjectReader<P, T>>(
    t: &MakerOf<T>,
    p: &mut P,
    depth: usize,
    start: Span,
    before: Vec<T::ExportSpecifier>,
) -> PResult<T::Item>
    ensures { GivesAs T.item_of
        (exports.more_names (reader.object_alone depth) start
        (map T.export_specifier_of before.items) (P.seen p.old)) result (P.seen p.new) }
{
    if p.export_default_from() && p.sees(TokenKind::Comma) {
        p.skip()?;
        let others = specifiers::<P, T>(t, p)?;
        let all = grown(p, joined::<T>(before, others))?;
        return named::<P, T, O>(t, p, depth, start, all);
    }
    names_from::<P, T, O>(t, p, depth, start, before)
}

/// A namespace from the word `as` on, with what stands before its star; the words behind `export` begin at `first`.
#[tactic(auto, unfolding(swc_ecma_parser_module_reader::specs::Exports::namespace_names), using(std::proofs::lemmas::List::map_push))]
fn namespace_names<P: Cursor, T: BuildsExport, O: ObjectReader<P, T>>(
    t: &MakerOf<T>,
    p: &mut P,
    depth: usize,
    start: Span,
    first: Span,
    before: Vec<T::ExportSpecifier>,
) -> PResult<T::Item>
    ensures { GivesAs T.item_of
        (exports.namespace_names (reader.object_alone depth) start first
        (map T.export_specifier_of before.items) (P.seen p.old)) result (P.seen p.new) }
{
    let namespace = export_namespace::<P, T>(t, p, first)?;
    let mut all = before;
    pushed(p, &mut all, namespace)?;
    more_names::<P, T, O>(t, p, depth, start, all)
}

/// An export of all names, from the word `from` on.
#[tactic(auto, unfolding(swc_ecma_parser_module_reader::specs::Exports::export_all))]
fn export_all<P: Cursor, T: BuildsExport, O: ObjectReader<P, T>>(
    t: &MakerOf<T>,
    p: &mut P,
    depth: usize,
    start: Span,
) -> PResult<T::Item>
    ensures { GivesAs T.item_of
        (exports.export_all (reader.object_alone depth) start (P.seen p.old)) result
        (P.seen p.new) }
{
    let src = source(p)?;
    let given = attributes::<P, T, O>(t, p, depth)?;
    p.end(Wanted::Token(";"))?;
    let span = since(p, start);
    grown(p, T::export_all(t.alloc, span, src, given))
}

/// An export from `*` on.
#[tactic(auto, unfolding(swc_ecma_parser_module_reader::specs::Exports::export_star))]
pub fn export_star<P: Cursor, T: BuildsExport, O: ObjectReader<P, T>>(
    t: &MakerOf<T>,
    p: &mut P,
    depth: usize,
    start: Span,
) -> PResult<T::Item>
    ensures { GivesAs T.item_of
        (exports.export_star (reader.object_alone depth) start (P.seen p.old)) result
        (P.seen p.new) }
{
    let star = p.span();
    p.skip()?;
    if !p.word_at("as") {
        return export_all::<P, T, O>(t, p, depth, start);
    }
    namespace_names::<P, T, O>(t, p, depth, start, star, Vec::new(t.alloc))
}

/// Whether a comma and a namespace stand here.
#[tactic(auto, unfolding(swc_ecma_parser_module_reader::specs::Exports::is_namespace_next))]
fn is_namespace_next<P: Cursor>(p: &P) -> bool
    ensures { result ≡ exports.is_namespace_next (P.seen p.now).at }
{
    p.sees(TokenKind::Comma) && p.next_sees(TokenKind::Mul)
}

/// From behind the default of another module on, which begins at `first`.
#[tactic(auto, unfolding(swc_ecma_parser_module_reader::specs::Exports::behind_default))]
fn behind_default<P: Cursor, T: BuildsExport, O: ObjectReader<P, T>>(
    t: &MakerOf<T>,
    p: &mut P,
    depth: usize,
    start: Span,
    first: Span,
    exported: Ident,
) -> PResult<T::Item>
    ensures { GivesAs T.item_of
        (exports.behind_default (reader.object_alone depth) start first
        (tree.export_default (tree.ident exported.span exported.sym)) (P.seen p.old)) result
        (P.seen p.new) }
{
    let exported = grown(p, T::export_default(t.alloc, exported))?;
    let mut all = Vec::new(t.alloc);
    pushed(p, &mut all, exported)?;
    if is_namespace_next(p) {
        p.skip()?;
        p.skip()?;
        return namespace_names::<P, T, O>(t, p, depth, start, first, all);
    }
    more_names::<P, T, O>(t, p, depth, start, all)
}

/// Whether the default of another module stands here under a name.
#[tactic(auto, unfolding(swc_ecma_parser_module_reader::specs::Exports::is_name_from))]
pub fn is_name_from<P: Cursor>(p: &P) -> bool
    ensures { result ≡ exports.is_name_from (P.seen p.now).code (P.seen p.now).at }
{
    p.export_default_from() && p.name_at() && !p.sees(TokenKind::Await)
}

/// An export of the default of another module, from its name on.
#[tactic(auto, unfolding(swc_ecma_parser_module_reader::specs::Exports::name_from))]
pub fn name_from<P: Cursor, T: BuildsExport, O: ObjectReader<P, T>>(
    t: &MakerOf<T>,
    p: &mut P,
    depth: usize,
    start: Span,
) -> PResult<T::Item>
    ensures { GivesAs T.item_of (exports.name_from (reader.object_alone depth) start (P.seen p.old))
        result (P.seen p.new) }
{
    let first = p.span();
    let name = p.name(Wanted::Name)?;
    behind_default::<P, T, O>(t, p, depth, start, first, name)
}

/// Whether the default of another module is exported by default, where this stands behind the word.
#[tactic(auto, unfolding(swc_ecma_parser_module_reader::specs::Exports::is_default_from))]
pub fn is_default_from<P: Cursor>(p: &P) -> bool
    ensures { result ≡ exports.is_default_from (P.seen p.now).code (P.seen p.now).at }
{
    p.export_default_from()
        && (p.word_at("from")
            || (p.sees(TokenKind::Comma)
                && (p.next_sees(TokenKind::Mul) || p.next_sees(TokenKind::LBrace))))
}

/// An export of the default of another module as the default, from behind the word on, which stands at `first`.
#[tactic(auto, unfolding(swc_ecma_parser_module_reader::specs::Exports::default_from))]
pub fn default_from<P: Cursor, T: BuildsExport, O: ObjectReader<P, T>>(
    t: &MakerOf<T>,
    p: &mut P,
    depth: usize,
    start: Span,
    first: Span,
) -> PResult<T::Item>
    ensures { GivesAs T.item_of
        (exports.default_from (reader.object_alone depth) start first (P.seen p.old)) result
        (P.seen p.new) }
{
    let sym = grown(p, Atom::new(t.alloc, "default"))?;
    behind_default::<P, T, O>(t, p, depth, start, first, Ident { span: first, sym })
}
