//! Imports: ECMA-262, section 16.2.2, and the proposal on phases.

ghost use Rattle.std.specs.Prelude.{◌≡◌, false, [], ◌∷◌, map, IfOk};
ghost use Rattle.swc_ecma_parser_grammar.specs.language.Imports as grammar;
ghost use Rattle.swc_ecma_parser_module_reader.specs.Imports as imports;
ghost use Rattle.swc_ecma_parser_modules.specs.Names.{name_of, str_of};
ghost use Rattle.swc_ecma_parser_reader.specs.Reader as rules;
ghost use Rattle.swc_ecma_parser_reader.specs.State.{Gives, GivesAs, loop, pure};

use crate::parts::{Name, ObjectReader, attributes, made_name, module_name, source, string};
use std::alloc::AllocError;
use swc_ecma_parser_common::{Boxed, Span};
use swc_ecma_parser_cursor::{Cursor, Wanted, is_name};
use swc_ecma_parser_error::{PResult, SyntaxError};
use swc_ecma_parser_input::Context;
use swc_ecma_parser_model::{Ident, ImportPhase, Str};
use swc_ecma_parser_shared::steps::{grown, pushed, since};
use swc_ecma_parser_token::TokenKind;
use swc_ecma_parser_trees::{BuildsImport, MakerOf};

/// A name in braces, with the one that it is exported by where `as` stands.
#[tactic(auto, unfolding(swc_ecma_parser_module_reader::specs::Imports::import_specifier, swc_ecma_parser_module_reader::specs::Imports::other_name))]
fn import_specifier<P: Cursor, T: BuildsImport>(
    t: &MakerOf<T>,
    p: &mut P,
) -> PResult<T::ImportSpecifier>
    ensures { GivesAs T.import_specifier_of (imports.import_specifier (P.seen p.old)) result
        (P.seen p.new) }
{
    let start = p.span();
    let name = module_name(p)?;
    if p.word_at("as") {
        p.skip()?;
        let local = p.name(Wanted::Name)?;
        let span = since(p, start);
        let imported = grown(p, made_name::<T>(t.alloc, name))?;
        return grown(p, T::import_named(t.alloc, span, local, Some(imported)));
    }
    same_name::<P, T>(t, p, start, name)
}

/// A name in braces without `as`: neither a reserved word nor a string.
fn same_name<P: Cursor, T: BuildsImport>(
    t: &MakerOf<T>,
    p: &mut P,
    start: Span,
    name: Name,
) -> PResult<T::ImportSpecifier>
    ensures { GivesAs T.import_specifier_of (imports.same_name start (name_of name) (P.seen p.old))
        result (P.seen p.new) }
{
    match name {
        Name::Word(local) => {
            if !is_name(p.flags(), local.sym.as_str()) {
                return Err(p.reject(SyntaxError::ReservedWordInImport, local.span));
            }
            let span = since(p, start);
            grown(p, T::import_named(t.alloc, span, local, None))
        }
        Name::Str(text) => {
            let value = grown(p, Boxed::new(t.alloc, text.value))?;
            Err(p.reject(SyntaxError::ImportBindingIsString(value), text.span))
        }
    }
}

/// Names in braces, up to `}`; a comma may stand behind the last.
#[tactic(auto, using(swc_ecma_parser_module_reader::proofs::Loops::specifiers_stop, swc_ecma_parser_module_reader::proofs::Loops::specifiers_more, swc_ecma_parser_module_reader::proofs::Loops::specifiers_last, swc_ecma_parser_module_reader::proofs::Loops::specifiers_err, swc_ecma_parser_module_reader::proofs::Falls::import_specifier_shorter, crate::proofs::Steps::imports_shorter, std::proofs::lemmas::List::map_push))]
fn named_imports<P: Cursor, T: BuildsImport>(
    t: &MakerOf<T>,
    p: &mut P,
) -> PResult<Vec<T::ImportSpecifier>>
    ensures { GivesAs (λ found. map T.import_specifier_of found.items)
        (loop (imports.specifiers_turn imports.import_specifier) [] (P.seen p.old)) result
        (P.seen p.new) }
{
    let mut found = Vec::new(t.alloc);
    'specifiers: loop {
        if p.sees(TokenKind::RBrace) {
            return Ok(found);
        }
        let specifier = import_specifier::<P, T>(t, p)?;
        pushed(p, &mut found, specifier)?;
        if !p.sees(TokenKind::Comma) {
            return Ok(found);
        }
        p.skip()?;
    }
}

/// The context of the name that a default or a namespace is bound to.
fn outside_functions(flags: Context) -> Context
    ensures { result ≡ record flags { in_async = false; in_generator = false } }
{
    Context {
        in_async: false,
        in_generator: false,
        ..flags
    }
}

/// Such a name.
#[tactic(auto, unfolding(swc_ecma_parser_module_reader::specs::Imports::binding_name))]
fn binding_name<P: Cursor>(p: &mut P) -> PResult<Ident>
    ensures { Gives (imports.binding_name (P.seen p.old)) result (P.seen p.new) }
{
    let outer = p.flags();
    p.set_flags(outside_functions(outer));
    let name = p.name(Wanted::Name)?;
    p.set_flags(outer);
    Ok(name)
}

/// `* as name`.
#[tactic(auto, unfolding(swc_ecma_parser_module_reader::specs::Imports::import_namespace))]
fn import_namespace<P: Cursor, T: BuildsImport>(
    t: &MakerOf<T>,
    p: &mut P,
) -> PResult<Vec<T::ImportSpecifier>>
    ensures { GivesAs (λ found. map T.import_specifier_of found.items)
        (imports.import_namespace (P.seen p.old)) result (P.seen p.new) }
{
    let start = p.span();
    p.skip()?;
    p.expect_word("as")?;
    let local = binding_name(p)?;
    let span = since(p, start);
    let specifier = grown(p, T::import_namespace(t.alloc, span, local))?;
    let mut found = Vec::new(t.alloc);
    pushed(p, &mut found, specifier)?;
    Ok(found)
}

/// All names, or names in braces.
#[tactic(auto, unfolding(swc_ecma_parser_module_reader::specs::Imports::bindings, swc_ecma_parser_module_reader::specs::Imports::specifiers))]
fn bindings<P: Cursor, T: BuildsImport>(
    t: &MakerOf<T>,
    p: &mut P,
) -> PResult<Vec<T::ImportSpecifier>>
    ensures { GivesAs (λ found. map T.import_specifier_of found.items)
        (imports.bindings (P.seen p.old)) result (P.seen p.new) }
{
    if p.sees(TokenKind::Mul) {
        return import_namespace::<P, T>(t, p);
    }
    p.expect(TokenKind::LBrace, "{")?;
    let found = named_imports::<P, T>(t, p)?;
    p.expect(TokenKind::RBrace, "}")?;
    Ok(found)
}

/// Whether all names, or names in braces, are imported from here on.
#[tactic(auto, unfolding(swc_ecma_parser_module_reader::specs::Imports::begins_bindings))]
fn begins_bindings<P: Cursor>(p: &P) -> bool
    ensures { result ≡ imports.begins_bindings (P.seen p.now).at }
{
    p.sees(TokenKind::Mul) || p.sees(TokenKind::LBrace)
}

/// What stands behind a default binding; a comma may stand there with nothing behind it.
#[tactic(auto, unfolding(swc_ecma_parser_module_reader::specs::Imports::more_bindings))]
fn more_bindings<P: Cursor, T: BuildsImport>(
    t: &MakerOf<T>,
    p: &mut P,
) -> PResult<Vec<T::ImportSpecifier>>
    ensures { GivesAs (λ found. map T.import_specifier_of found.items)
        (imports.more_bindings (P.seen p.old)) result (P.seen p.new) }
{
    if !p.sees(TokenKind::Comma) {
        return Ok(Vec::new(t.alloc));
    }
    p.skip()?;
    if begins_bindings(p) {
        return bindings::<P, T>(t, p);
    }
    Ok(Vec::new(t.alloc))
}

/// One before the others.
fn with_first<T: BuildsImport>(
    first: T::ImportSpecifier,
    others: Vec<T::ImportSpecifier>,
) -> Result<Vec<T::ImportSpecifier>, AllocError>
    ensures { IfOk result
        (λ all. map T.import_specifier_of all.items
        ≡ T.import_specifier_of first ∷ map T.import_specifier_of others.items) }
{
    let mut all = others;
    all.insert(0, first)?;
    Ok(all)
}

/// A default binding, from behind its name on.
#[tactic(auto, unfolding(swc_ecma_parser_module_reader::specs::Imports::default_binding))]
fn default_binding<P: Cursor, T: BuildsImport>(
    t: &MakerOf<T>,
    p: &mut P,
    local: Ident,
) -> PResult<Vec<T::ImportSpecifier>>
    ensures { GivesAs (λ found. map T.import_specifier_of found.items)
        (imports.default_binding local (P.seen p.old)) result (P.seen p.new) }
{
    let others = more_bindings::<P, T>(t, p)?;
    let span = local.span;
    let first = grown(p, T::import_default(t.alloc, span, local))?;
    grown(p, with_first::<T>(first, others))
}

/// What is imported.
#[tactic(auto, unfolding(swc_ecma_parser_module_reader::specs::Imports::import_clause))]
fn import_clause<P: Cursor, T: BuildsImport>(
    t: &MakerOf<T>,
    p: &mut P,
) -> PResult<Vec<T::ImportSpecifier>>
    ensures { GivesAs (λ found. map T.import_specifier_of found.items)
        (imports.import_clause (P.seen p.old)) result (P.seen p.new) }
{
    if begins_bindings(p) {
        return bindings::<P, T>(t, p);
    }
    let local = binding_name(p)?;
    default_binding::<P, T>(t, p, local)
}

/// An import, from behind the string on.
#[tactic(auto, unfolding(swc_ecma_parser_module_reader::specs::Imports::imported))]
fn imported<P: Cursor, T: BuildsImport, O: ObjectReader<P, T>>(
    t: &MakerOf<T>,
    p: &mut P,
    depth: usize,
    start: Span,
    phase: ImportPhase,
    specifiers: Vec<T::ImportSpecifier>,
    src: Str,
) -> PResult<T::Item>
    ensures { GivesAs T.item_of
        (imports.imported (rules.object_alone depth) start phase
        (map T.import_specifier_of specifiers.items) (pure (str_of src)) (P.seen p.old)) result
        (P.seen p.new) }
{
    let given = attributes::<P, T, O>(t, p, depth)?;
    p.end(Wanted::Token(";"))?;
    let span = since(p, start);
    grown(p, T::import(t.alloc, span, specifiers, src, given, phase))
}

/// An import, from what is imported on.
#[tactic(auto, unfolding(swc_ecma_parser_module_reader::specs::Imports::import_from, swc_ecma_parser_module_reader::specs::Imports::imported))]
fn import_from<P: Cursor, T: BuildsImport, O: ObjectReader<P, T>>(
    t: &MakerOf<T>,
    p: &mut P,
    depth: usize,
    start: Span,
    phase: ImportPhase,
) -> PResult<T::Item>
    ensures { GivesAs T.item_of
        (imports.import_from (rules.object_alone depth) start phase (P.seen p.old)) result
        (P.seen p.new) }
{
    let specifiers = import_clause::<P, T>(t, p)?;
    let src = source(p)?;
    imported::<P, T, O>(t, p, depth, start, phase, specifiers, src)
}

/// Whether what stands here makes a phase of the word before it.
#[tactic(auto, unfolding(swc_ecma_parser_grammar::specs::language::Imports::follows_phase))]
fn follows_phase<P: Cursor>(p: &P) -> bool
    ensures { result ≡ grammar.follows_phase (P.seen p.now).code (P.seen p.now).at }
{
    p.sees(TokenKind::Mul)
        || p.sees(TokenKind::LBrace)
        || p.identifier_at() && !p.word_at("from")
        || p.next_word_at("from")
}

/// The phase that one of the two words says.
fn phase_of(text: &str) -> ImportPhase
    ensures { result ≡ imports.phase_of text.now }
{
    if text == "source" {
        ImportPhase::Source
    } else {
        ImportPhase::Defer
    }
}

/// An import, from the word `source` or `defer` on: a phase, or a name for the default.
#[tactic(auto, unfolding(swc_ecma_parser_module_reader::specs::Imports::import_phased, swc_ecma_parser_module_reader::specs::Imports::imported))]
fn import_phased<P: Cursor, T: BuildsImport, O: ObjectReader<P, T>>(
    t: &MakerOf<T>,
    p: &mut P,
    depth: usize,
    start: Span,
) -> PResult<T::Item>
    ensures { GivesAs T.item_of
        (imports.import_phased (rules.object_alone depth) start (P.seen p.old)) result
        (P.seen p.new) }
{
    let word = p.any_word()?;
    if follows_phase(p) {
        return import_from::<P, T, O>(t, p, depth, start, phase_of(word.sym.as_str()));
    }
    let specifiers = default_binding::<P, T>(t, p, word)?;
    let src = source(p)?;
    imported::<P, T, O>(t, p, depth, start, ImportPhase::Evaluation, specifiers, src)
}

/// Whether one of these two words stands here.
#[tactic(auto, unfolding(swc_ecma_parser_module_reader::specs::Imports::is_phase_word))]
fn is_phase_word<P: Cursor>(p: &P) -> bool
    ensures { result ≡ imports.is_phase_word (P.seen p.now).at }
{
    p.word_at("source") || p.word_at("defer")
}

/// Whether what is imported begins here: a name for the default, all names, or names in braces.
#[tactic(auto, unfolding(swc_ecma_parser_module_reader::specs::Imports::begins_clause))]
fn begins_clause<P: Cursor>(p: &mut P) -> bool
    ensures clause { result ≡ imports.begins_clause (P.seen p.old).code (P.seen p.old).at }
    ensures state { P.seen p.new ≡ P.seen p.old }
{
    if begins_bindings(p) {
        return true;
    }
    let outer = p.flags();
    p.set_flags(outside_functions(outer));
    let begins = p.identifier_at();
    p.set_flags(outer);
    begins
}

/// An import in no phase, from behind its word on. Where nothing that is imported begins, `from` is wanted.
#[tactic(auto, unfolding(swc_ecma_parser_module_reader::specs::Imports::import_unphased))]
fn import_unphased<P: Cursor, T: BuildsImport, O: ObjectReader<P, T>>(
    t: &MakerOf<T>,
    p: &mut P,
    depth: usize,
    start: Span,
) -> PResult<T::Item>
    ensures { GivesAs T.item_of
        (imports.import_unphased (rules.object_alone depth) start (P.seen p.old)) result
        (P.seen p.new) }
{
    if !begins_clause(p) {
        return Err(p.refuse(Wanted::Token("from")));
    }
    import_from::<P, T, O>(t, p, depth, start, ImportPhase::Evaluation)
}

/// An import, whose attributes may take so many levels.
#[tactic(auto, unfolding(swc_ecma_parser_module_reader::specs::Imports::import_decl, swc_ecma_parser_module_reader::specs::Imports::imported))]
pub fn import_decl<P: Cursor, T: BuildsImport, O: ObjectReader<P, T>>(
    t: &MakerOf<T>,
    p: &mut P,
    depth: usize,
) -> PResult<T::Item>
    ensures { GivesAs T.item_of (imports.import_decl (rules.object_alone depth) (P.seen p.old))
        result (P.seen p.new) }
{
    let start = p.span();
    p.skip()?;
    if p.sees(TokenKind::Str) {
        let src = string(p)?;
        let specifiers = Vec::new(t.alloc);
        return imported::<P, T, O>(t, p, depth, start, ImportPhase::Evaluation, specifiers, src);
    }
    if is_phase_word(p) {
        return import_phased::<P, T, O>(t, p, depth, start);
    }
    import_unphased::<P, T, O>(t, p, depth, start)
}
