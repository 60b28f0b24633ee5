//! Exports with decorators, before or behind their words: the proposal of decorators.

ghost use Rattle.std.specs.Prelude.{◌≡◌, map, Ok};
ghost use Rattle.swc_ecma_parser_grammar.specs.language.Items.{nested_item};
ghost use Rattle.swc_ecma_parser_grammar.specs.language.Exports as around;
ghost use Rattle.swc_ecma_parser_grammar.specs.language.Goals.{left_side};
ghost use Rattle.swc_ecma_parser_members.specs.Leading.{leading_of};
ghost use Rattle.swc_ecma_parser_model.specs.Tree.{listed, trees};
ghost use Rattle.swc_ecma_parser_module_reader.specs.Decorated as decorated;
ghost use Rattle.swc_ecma_parser_module_reader.specs.Exports as exports;
ghost use Rattle.swc_ecma_parser_reader.specs.DecoratorLevels.{decorated_in};
ghost use Rattle.swc_ecma_parser_reader.specs.Members as members;
ghost use Rattle.swc_ecma_parser_reader.specs.Reader as rules;
ghost use Rattle.swc_ecma_parser_reader.specs.State.{Gives, GivesAs, and_then};

use crate::exported::{
    begins_function, default_name, default_rest, export_default, export_named, export_rest,
};
use swc_ecma_parser_classes::class::NamedClass;
use swc_ecma_parser_common::{BytePos, Span};
use swc_ecma_parser_cursor::Cursor;
use swc_ecma_parser_error::{PResult, SyntaxError};
use swc_ecma_parser_functions::function::{Manner, function_word, star};
use swc_ecma_parser_knot::knot::{
    declared_class_with, declared_function_with, inner_class_with, inner_function_with, leading,
};
use swc_ecma_parser_members::decorators::{Leading, misplaced};
use swc_ecma_parser_shared::found::found_module_item;
use swc_ecma_parser_shared::steps::{grown, since};
use swc_ecma_parser_token::TokenKind;
use swc_ecma_parser_trees::{
    BuildsExport, BuildsFunction, BuildsStatements, BuildsVarDecl, MakerOf,
};

/// Whether decorators begin here.
#[tactic(auto, unfolding(swc_ecma_parser_module_reader::specs::Decorated::begins_decorators))]
pub fn begins_decorators<P: Cursor>(p: &P) -> bool
    ensures { result ≡ decorated.begins_decorators (P.seen p.now).code (P.seen p.now).at }
{
    p.decorators() && p.sees(TokenKind::At)
}

/// Whether none of these begins before a position.
fn none_before<T: BuildsFunction>(at: BytePos, list: &[T::Decorator]) -> bool
    ensures { result ≡ decorated.none_before at (trees (map T.decorator_of list.now)) }
{
    for item in list {
        if T::decorator_span(item).lo < at {
            return false;
        }
    }
    true
}

/// Whether each of these begins before a word.
fn begin_before<T: BuildsFunction>(word: Span, list: &[T::Decorator]) -> bool
    ensures { result ≡ around.begin_before word (listed (map T.decorator_of list.now)) }
{
    for item in list {
        if T::decorator_span(item).lo >= word.lo {
            return false;
        }
    }
    true
}

/// Refuses decorators behind the words of an export that begins at `start`, where they may not stand.
#[tactic(auto, unfolding(swc_ecma_parser_module_reader::specs::Decorated::later_alone))]
fn later_alone<P: Cursor, T: BuildsFunction>(
    p: &mut P,
    start: Span,
    before: &Leading<T::Decorator>,
    behind: &Leading<T::Decorator>,
) -> PResult<()>
    ensures { Gives
        (decorated.later_alone start (leading_of T.decorator_of before.now)
        (leading_of T.decorator_of behind.now) (P.seen p.old)) result (P.seen p.new) }
{
    if p.sees(TokenKind::Export) {
        let word = p.span();
        return Err(p.reject(SyntaxError::ExportNotAllowed, word));
    }
    if !before.found.is_empty() {
        return Err(p.reject(SyntaxError::TS8038, behind.place));
    }
    if none_before::<T>(start.lo, &behind.found) {
        return Ok(());
    }
    Err(p.reject(SyntaxError::DecoratorOnExport, behind.place))
}

/// Decorators behind the words of an export that begins at `start`, which may stand there.
fn alone<P: Cursor, T: BuildsFunction>(
    p: &mut P,
    start: Span,
    before: &Leading<T::Decorator>,
    behind: Leading<T::Decorator>,
) -> PResult<Leading<T::Decorator>>
    ensures { GivesAs (leading_of T.decorator_of)
        (and_then (decorated.later_alone start (leading_of T.decorator_of before.now)
        (leading_of T.decorator_of behind) (P.seen p.old))
        (λ _ s. Ok (leading_of T.decorator_of behind, s))) result (P.seen p.new) }
{
    later_alone::<P, T>(p, start, before, &behind)?;
    Ok(behind)
}

/// The decorators behind the words of an export that begins at `start`, or those before it, where there are none.
#[tactic(auto, unfolding(swc_ecma_parser_module_reader::specs::Decorated::later))]
fn later<P: Cursor, T: BuildsStatements>(
    t: &MakerOf<T>,
    p: &mut P,
    depth: usize,
    start: Span,
    before: Leading<T::Decorator>,
) -> PResult<Leading<T::Decorator>>
    ensures { GivesAs (leading_of T.decorator_of)
        (decorated.later (decorated_in depth) start (leading_of T.decorator_of before)
        (P.seen p.old)) result (P.seen p.new) }
{
    let behind = leading::<P, T>(t, p, depth)?;
    if behind.found.is_empty() {
        return Ok(before);
    }
    alone::<P, T>(p, start, &before, behind)
}

/// An export of a class, from it on, with its decorators.
#[tactic(auto, unfolding(swc_ecma_parser_module_reader::specs::Exports::exported), using(swc_ecma_parser_module_reader::proofs::Dressed::class_dressed))]
fn exported_class<P: Cursor, T: BuildsStatements + BuildsExport>(
    t: &MakerOf<T>,
    p: &mut P,
    depth: usize,
    start: Span,
    list: Vec<T::Decorator>,
) -> PResult<T::Item>
    ensures { GivesAs T.item_of
        (exports.exported (rules.stmt depth nested_item) (rules.expr depth) (rules.pattern depth)
        (rules.parameters depth) (rules.member depth) start
        (decorated.decorating (map T.decorator_of list.items)
        (members.class_decl (rules.expr depth left_side) (rules.member depth))) (P.seen p.old))
        result (P.seen p.new) }
{
    let word = p.span();
    let decl = declared_class_with::<P, T>(t, p, depth, word, list)?;
    let span = since(p, start);
    grown(p, T::export_decl(t.alloc, span, decl))
}

/// An export of a function, from it on, with its decorators.
#[tactic(auto, unfolding(swc_ecma_parser_module_reader::specs::Exports::exported), using(swc_ecma_parser_module_reader::proofs::Dressed::function_dressed))]
fn exported_function<P: Cursor, T: BuildsStatements + BuildsExport>(
    t: &MakerOf<T>,
    p: &mut P,
    depth: usize,
    start: Span,
    list: Vec<T::Decorator>,
) -> PResult<T::Item>
    ensures { GivesAs T.item_of
        (exports.exported (rules.stmt depth nested_item) (rules.expr depth) (rules.pattern depth)
        (rules.parameters depth) (rules.member depth) start
        (decorated.decorating (map T.decorator_of list.items)
        (rules.function_decl (rules.stmt depth nested_item) (rules.parameters depth)))
        (P.seen p.old)) result (P.seen p.new) }
{
    let decl = declared_function_with::<P, T>(t, p, depth, list)?;
    let span = since(p, start);
    grown(p, T::export_decl(t.alloc, span, decl))
}

/// A class that is exported by default, from it on, with its decorators.
#[tactic(auto, unfolding(swc_ecma_parser_module_reader::specs::Decorated::by_default), using(swc_ecma_parser_module_reader::proofs::Dressed::class_expr_dressed))]
fn default_class<P: Cursor, T: BuildsStatements + BuildsExport>(
    t: &MakerOf<T>,
    p: &mut P,
    depth: usize,
    start: Span,
    list: Vec<T::Decorator>,
) -> PResult<T::Item>
    ensures { GivesAs T.item_of
        (decorated.by_default start
        (decorated.decorating (map T.decorator_of list.items)
        (members.class_expr (rules.expr depth left_side) (rules.member depth))) (P.seen p.old))
        result (P.seen p.new) }
{
    let NamedClass { name, class } = inner_class_with::<P, T>(t, p, depth, list)?;
    let span = T::class_span(&class);
    let decl = grown(p, T::default_class(t.alloc, span, name, class))?;
    let span = since(p, start);
    grown(p, T::export_default_decl(t.alloc, span, decl))
}

/// A function that is exported by default, with its decorators.
#[tactic(auto, unfolding(swc_ecma_parser_module_reader::specs::Decorated::default_function_with))]
fn default_function_decl<P: Cursor, T: BuildsStatements + BuildsExport>(
    t: &MakerOf<T>,
    p: &mut P,
    depth: usize,
    list: Vec<T::Decorator>,
) -> PResult<T::DefaultDecl>
    ensures { GivesAs T.default_decl_of
        (decorated.default_function_with (rules.stmt depth nested_item) (rules.parameters depth)
        (map T.decorator_of list.items) (P.seen p.old)) result (P.seen p.new) }
{
    let start = p.span();
    let is_async = function_word(p)?;
    let is_generator = star(p)?;
    let manner = Manner {
        is_async,
        is_generator,
    };
    let name = default_name(p)?;
    let function = inner_function_with::<P, T>(t, p, depth, manner, start, list)?;
    let span = T::function_span(&function);
    grown(p, T::default_fn(t.alloc, span, name, function))
}

/// An export of such a function, from it on.
#[tactic(auto, unfolding(swc_ecma_parser_module_reader::specs::Decorated::by_default), using(swc_ecma_parser_module_reader::proofs::Dressed::default_function_dressed))]
fn default_function<P: Cursor, T: BuildsStatements + BuildsExport>(
    t: &MakerOf<T>,
    p: &mut P,
    depth: usize,
    start: Span,
    list: Vec<T::Decorator>,
) -> PResult<T::Item>
    ensures { GivesAs T.item_of
        (decorated.by_default start
        (decorated.decorating (map T.decorator_of list.items)
        (exports.default_function (rules.stmt depth nested_item) (rules.parameters depth)))
        (P.seen p.old)) result (P.seen p.new) }
{
    let decl = default_function_decl::<P, T>(t, p, depth, list)?;
    let span = since(p, start);
    grown(p, T::export_default_decl(t.alloc, span, decl))
}

/// What is exported behind decorators: a class and a function take them, and before anything else they are dropped.
#[tactic(auto, unfolding(swc_ecma_parser_module_reader::specs::Decorated::named_with))]
fn named_with<P: Cursor, T: BuildsStatements + BuildsExport + BuildsVarDecl>(
    t: &MakerOf<T>,
    p: &mut P,
    depth: usize,
    start: Span,
    list: Leading<T::Decorator>,
) -> PResult<T::Item>
    ensures { GivesAs T.item_of
        (decorated.named_with (rules.stmt depth nested_item) (rules.expr depth)
        (rules.pattern depth) (rules.parameters depth) (rules.member depth)
        (rules.object_alone depth) (decorated_in depth) start (leading_of T.decorator_of list)
        (P.seen p.old)) result (P.seen p.new) }
{
    if p.sees(TokenKind::Class) {
        return exported_class::<P, T>(t, p, depth, start, list.found);
    }
    if begins_function(p) {
        return exported_function::<P, T>(t, p, depth, start, list.found);
    }
    misplaced::<P, T>(t.alloc, p, &list)?;
    export_rest::<P, T>(t, p, depth, start)
}

/// What is exported by default behind decorators.
#[tactic(auto, unfolding(swc_ecma_parser_module_reader::specs::Decorated::default_with))]
fn default_with<P: Cursor, T: BuildsStatements + BuildsExport>(
    t: &MakerOf<T>,
    p: &mut P,
    depth: usize,
    start: Span,
    first: Span,
    list: Leading<T::Decorator>,
) -> PResult<T::Item>
    ensures { GivesAs T.item_of
        (decorated.default_with (rules.stmt depth nested_item) (rules.expr depth)
        (rules.pattern depth) (rules.parameters depth) (rules.member depth)
        (rules.object_alone depth) (decorated_in depth) start first (leading_of T.decorator_of list)
        (P.seen p.old)) result (P.seen p.new) }
{
    if p.sees(TokenKind::Class) {
        return default_class::<P, T>(t, p, depth, start, list.found);
    }
    if begins_function(p) {
        return default_function::<P, T>(t, p, depth, start, list.found);
    }
    misplaced::<P, T>(t.alloc, p, &list)?;
    default_rest::<P, T>(t, p, depth, start, first)
}

/// An export from behind its word on, with the decorators there or before it.
fn later_named<P: Cursor, T: BuildsStatements + BuildsExport + BuildsVarDecl>(
    t: &MakerOf<T>,
    p: &mut P,
    depth: usize,
    start: Span,
    before: Leading<T::Decorator>,
) -> PResult<T::Item>
    ensures { GivesAs T.item_of
        (and_then (decorated.later (decorated_in depth) start (leading_of T.decorator_of before)
        (P.seen p.old))
        (decorated.named_with (rules.stmt depth nested_item) (rules.expr depth)
        (rules.pattern depth) (rules.parameters depth) (rules.member depth)
        (rules.object_alone depth) (decorated_in depth) start)) result (P.seen p.new) }
{
    let list = later::<P, T>(t, p, depth, start, before)?;
    named_with::<P, T>(t, p, depth, start, list)
}

/// An export of a default from behind its words on, with the decorators there or before it.
fn later_default<P: Cursor, T: BuildsStatements + BuildsExport>(
    t: &MakerOf<T>,
    p: &mut P,
    depth: usize,
    start: Span,
    first: Span,
    before: Leading<T::Decorator>,
) -> PResult<T::Item>
    ensures { GivesAs T.item_of
        (and_then (decorated.later (decorated_in depth) start (leading_of T.decorator_of before)
        (P.seen p.old))
        (decorated.default_with (rules.stmt depth nested_item) (rules.expr depth)
        (rules.pattern depth) (rules.parameters depth) (rules.member depth)
        (rules.object_alone depth) (decorated_in depth) start first)) result (P.seen p.new) }
{
    let list = later::<P, T>(t, p, depth, start, before)?;
    default_with::<P, T>(t, p, depth, start, first, list)
}

/// An export from behind its word on, with the decorators before it.
#[tactic(auto, unfolding(swc_ecma_parser_module_reader::specs::Decorated::behind_export))]
fn behind_export<P: Cursor, T: BuildsStatements + BuildsExport + BuildsVarDecl>(
    t: &MakerOf<T>,
    p: &mut P,
    depth: usize,
    start: Span,
    before: Leading<T::Decorator>,
) -> PResult<T::Item>
    ensures { GivesAs T.item_of
        (decorated.behind_export (rules.stmt depth nested_item) (rules.expr depth)
        (rules.pattern depth) (rules.parameters depth) (rules.member depth)
        (rules.object_alone depth) (decorated_in depth) start (leading_of T.decorator_of before)
        (P.seen p.old)) result (P.seen p.new) }
{
    if !before.found.is_empty() || begins_decorators(p) {
        return later_named::<P, T>(t, p, depth, start, before);
    }
    export_named::<P, T>(t, p, depth, start)
}

/// An export of a default from behind its words on, the last of which stands at `first`, with the decorators before it.
#[tactic(auto, unfolding(swc_ecma_parser_module_reader::specs::Decorated::behind_default_word))]
fn behind_default_word<P: Cursor, T: BuildsStatements + BuildsExport>(
    t: &MakerOf<T>,
    p: &mut P,
    depth: usize,
    start: Span,
    first: Span,
    before: Leading<T::Decorator>,
) -> PResult<T::Item>
    ensures { GivesAs T.item_of
        (decorated.behind_default_word (rules.stmt depth nested_item) (rules.expr depth)
        (rules.pattern depth) (rules.parameters depth) (rules.member depth)
        (rules.object_alone depth) (decorated_in depth) start first
        (leading_of T.decorator_of before) (P.seen p.old)) result (P.seen p.new) }
{
    if !before.found.is_empty() || begins_decorators(p) {
        return later_default::<P, T>(t, p, depth, start, first, before);
    }
    export_default::<P, T>(t, p, depth, start, first)
}

/// An export, with the decorators before it.
#[tactic(auto, unfolding(swc_ecma_parser_module_reader::specs::Decorated::export_from))]
fn export_from<P: Cursor, T: BuildsStatements + BuildsExport + BuildsVarDecl>(
    t: &MakerOf<T>,
    p: &mut P,
    depth: usize,
    before: Leading<T::Decorator>,
) -> PResult<T::Item>
    ensures { GivesAs T.item_of
        (decorated.export_from (rules.stmt depth nested_item) (rules.expr depth)
        (rules.pattern depth) (rules.parameters depth) (rules.member depth)
        (rules.object_alone depth) (decorated_in depth) (leading_of T.decorator_of before)
        (P.seen p.old)) result (P.seen p.new) }
{
    let start = p.span();
    p.skip()?;
    if p.sees(TokenKind::Default) {
        let first = p.span();
        p.skip()?;
        return behind_default_word::<P, T>(t, p, depth, start, first, before);
    }
    behind_export::<P, T>(t, p, depth, start, before)
}

/// An export behind decorators, if they may stand there.
#[tactic(auto, unfolding(swc_ecma_parser_module_reader::specs::Decorated::export_with))]
pub fn export_with<P: Cursor, T: BuildsStatements + BuildsExport + BuildsVarDecl>(
    t: &MakerOf<T>,
    p: &mut P,
    depth: usize,
    before: Leading<T::Decorator>,
) -> PResult<T::Item>
    ensures { GivesAs T.item_of
        (decorated.export_with (rules.stmt depth nested_item) (rules.expr depth)
        (rules.pattern depth) (rules.parameters depth) (rules.member depth)
        (rules.object_alone depth) (decorated_in depth) (leading_of T.decorator_of before)
        (P.seen p.old)) result (P.seen p.new) }
{
    let word = p.span();
    let may_stand = p.decorators_before_export() && begin_before::<T>(word, &before.found);
    if !before.found.is_empty() && !may_stand {
        return Err(p.reject(SyntaxError::DecoratorOnExport, before.place));
    }
    export_from::<P, T>(t, p, depth, before)
}

/// No decorators, where nothing was read.
pub fn no_leading<P: Cursor, T: BuildsFunction>(t: &MakerOf<T>, p: &mut P) -> Leading<T::Decorator>
    ensures none { leading_of T.decorator_of result ≡ decorated.no_leading (P.seen p.old) }
    ensures state { P.seen p.new ≡ P.seen p.old }
{
    let module_found = found_module_item(t.alloc, p);
    let place = p.span();
    Leading {
        found: Vec::new(t.alloc),
        place,
        module_found,
    }
}

/// An export, before which no decorators stand.
#[tactic(auto, unfolding(swc_ecma_parser_module_reader::specs::Decorated::export_item))]
pub fn export_item<P: Cursor, T: BuildsStatements + BuildsExport + BuildsVarDecl>(
    t: &MakerOf<T>,
    p: &mut P,
    depth: usize,
) -> PResult<T::Item>
    ensures { GivesAs T.item_of
        (decorated.export_item (rules.stmt depth nested_item) (rules.expr depth)
        (rules.pattern depth) (rules.parameters depth) (rules.member depth)
        (rules.object_alone depth) (decorated_in depth) (P.seen p.old)) result (P.seen p.new) }
{
    let before = no_leading::<P, T>(t, p);
    export_from::<P, T>(t, p, depth, before)
}
