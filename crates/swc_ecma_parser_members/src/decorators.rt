//! Decorators, one behind another, also before it is known whose they are: the proposal of decorators.

ghost use Rattle.std.specs.Prelude.{◌≡◌, [], map};
ghost use Rattle.swc_ecma_parser_members.specs.Leading.{leading_of};
ghost use Rattle.swc_ecma_parser_reader.specs.DecoratorLevels as levels;
ghost use Rattle.swc_ecma_parser_reader.specs.Decorators as decorators;
ghost use Rattle.swc_ecma_parser_reader.specs.State.{Gives, GivesAs, loop};

use std::alloc::Global;
use swc_ecma_parser_common::Span;
use swc_ecma_parser_cursor::Cursor;
use swc_ecma_parser_error::{PResult, SyntaxError};
use swc_ecma_parser_shared::cover::Reading;
use swc_ecma_parser_shared::found::{found_module_item, set_found_module_item};
use swc_ecma_parser_shared::readers::Readers;
use swc_ecma_parser_shared::steps::{grown, pushed, since};
use swc_ecma_parser_token::TokenKind;
use swc_ecma_parser_trees::{BuildsFunction, MakerOf, Trees};

/// What stands behind `@`, which the reader of expressions reads one level further in.
fn decorated<P: Cursor, T: Trees, G: Readers<P, T>>(
    g: &G,
    t: &MakerOf<T>,
    p: &mut P,
) -> PResult<T::Expr>
    requires { G.ready g.now }
    ensures { GivesAs T.expr_of (levels.decorated_in (G.depth g.now) (P.seen p.old)) result
        (P.seen p.new) }
{
    let found = g.expr(t, p, Reading::Decorated)?;
    Ok(found.tree)
}

/// One decorator, from `@` on.
#[tactic(auto, unfolding(swc_ecma_parser_reader::specs::Decorators::decorator))]
fn decorator<P: Cursor, T: BuildsFunction, G: Readers<P, T>>(
    g: &G,
    t: &MakerOf<T>,
    p: &mut P,
) -> PResult<T::Decorator>
    requires { G.ready g.now }
    ensures { GivesAs T.decorator_of
        (decorators.decorator (levels.decorated_in (G.depth g.now)) (P.seen p.old)) result
        (P.seen p.new) }
{
    let start = p.span();
    p.skip()?;
    let expr = decorated(g, t, p)?;
    let span = since(p, start);
    grown(p, T::decorator(t.alloc, span, expr))
}

/// Decorators one behind another, where the setting has them.
#[tactic(auto, using(swc_ecma_parser_reader::proofs::decorators::Loops::decorators_done))]
#[inline(never)]
fn all_decorators<P: Cursor, T: BuildsFunction, G: Readers<P, T>>(
    g: &G,
    t: &MakerOf<T>,
    p: &mut P,
) -> PResult<Vec<T::Decorator>>
    requires { G.ready g.now }
    ensures { GivesAs (λ found. map T.decorator_of found.items)
        (loop (decorators.decorators_turn (levels.decorated_in (G.depth g.now))) [] (P.seen p.old))
        result (P.seen p.new) }
{
    let mut found = Vec::new(t.alloc);
    'decorators: while p.sees(TokenKind::At) {
        let item = decorator(g, t, p)?;
        pushed(p, &mut found, item)?;
    }
    Ok(found)
}

/// The decorators that stand here, if any do and the setting has them.
#[tactic(auto, unfolding(swc_ecma_parser_reader::specs::Decorators::decorators))]
pub fn decorators<P: Cursor, T: BuildsFunction, G: Readers<P, T>>(
    g: &G,
    t: &MakerOf<T>,
    p: &mut P,
) -> PResult<Vec<T::Decorator>>
    requires { G.ready g.now }
    ensures { GivesAs (λ found. map T.decorator_of found.items)
        (levels.decorators_in (G.depth g.now) (P.seen p.old)) result (P.seen p.new) }
{
    if !p.decorators() {
        return Ok(Vec::new(t.alloc));
    }
    all_decorators(g, t, p)
}

/// Decorators that were read before it is known whose they are.
#[derive(Drop)]
pub struct Leading<D> {
    pub found: Vec<D>,
    /// From the first `@` to the end of the last decorator.
    pub place: Span,
    /// Whether what makes a program a module was read before them.
    pub module_found: bool,
}

/// The decorators that stand here, with what has to be known of them where nothing takes them.
#[tactic(auto, unfolding(swc_ecma_parser_reader::specs::Decorators::leading))]
#[inline(never)]
pub fn leading_decorators<P: Cursor, T: BuildsFunction, G: Readers<P, T>>(
    g: &G,
    t: &MakerOf<T>,
    p: &mut P,
) -> PResult<Leading<T::Decorator>>
    requires { G.ready g.now }
    ensures { GivesAs (leading_of T.decorator_of)
        (decorators.leading (levels.decorated_in (G.depth g.now)) (P.seen p.old)) result
        (P.seen p.new) }
{
    let module_found = found_module_item(t.alloc, p);
    let start = p.span();
    let found = decorators(g, t, p)?;
    let place = since(p, start);
    Ok(Leading {
        found,
        place,
        module_found,
    })
}

/// Records decorators that nothing takes; what in them makes a program a module is dropped with them.
#[tactic(auto, unfolding(swc_ecma_parser_reader::specs::Decorators::misplaced))]
#[inline(never)]
pub fn misplaced<P: Cursor, T: BuildsFunction>(
    alloc: Global,
    p: &mut P,
    leading: &Leading<T::Decorator>,
) -> PResult<()>
    ensures { Gives (decorators.misplaced (leading_of T.decorator_of leading.now) (P.seen p.old))
        result (P.seen p.new) }
{
    if leading.found.is_empty() {
        return Ok(());
    }
    set_found_module_item(alloc, p, leading.module_found);
    p.fault(SyntaxError::InvalidLeadingDecorator, leading.place)
}
