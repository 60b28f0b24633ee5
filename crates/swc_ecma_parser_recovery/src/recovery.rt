//! The end of a declaration, and what is dropped behind a fault where it is missing.

ghost use Rattle.std.specs.Prelude.{◌≡◌, ◌≢◌, ◌||◌, is_some, IfOk, IfErr};
ghost use Rattle.swc_ecma_parser_error.specs.Kind as kinds;
ghost use Rattle.swc_ecma_parser_error.specs.Kind.{kind_of};
ghost use Rattle.swc_ecma_parser_grammar.specs.language.Contexts.{with_in};
ghost use Rattle.swc_ecma_parser_grammar.specs.language.Goals.{expression};
ghost use Rattle.swc_ecma_parser_reader.proofs.Recovered.{set_back};
ghost use Rattle.swc_ecma_parser_reader.specs.Reader as rules;
ghost use Rattle.swc_ecma_parser_reader.specs.Recovery as recovery;
ghost use Rattle.swc_ecma_parser_reader.specs.State as reader;
ghost use Rattle.swc_ecma_parser_reader.specs.State.{Gives};
ghost use Rattle.swc_ecma_parser_recovery.specs.Dropped.{dropped_in, ended};

use swc_ecma_parser_cursor::{Around, Cursor};
use swc_ecma_parser_error::{Error, PResult, SyntaxError};
use swc_ecma_parser_grammar::Class;
use swc_ecma_parser_input::Context;
use swc_ecma_parser_shared::cover::inside;
use swc_ecma_parser_shared::ends::can_end;
use swc_ecma_parser_shared::readers::Readers;
use swc_ecma_parser_token::TokenKind;
use swc_ecma_parser_trees::{MakerOf, Trees};

/// Whether a kind of fault says that memory ran out.
fn says_out_of_memory(kind: &SyntaxError) -> bool
    ensures { result ≡ reader.says_out_of_memory (kind_of kind.now) }
{
    matches!(kind, SyntaxError::OutOfMemory)
}

/// Whether a refusal stays one where what is refused is dropped: something stood too deep, or memory ran out.
pub fn stays_refused<P: Cursor>(p: &P, error: &Error) -> bool
    ensures { result
        ≡ (is_some (P.seen p.now).scope.mark
        || reader.says_out_of_memory (kind_of error.now.kind)) }
{
    p.is_marked() || says_out_of_memory(&error.kind)
}

/// Puts back what stood around what is dropped.
fn put_back<P: Cursor>(p: &mut P, around: Around, outer: Context)
    requires { outer.module ≡ (P.seen p.old).code.flags.module }
    ensures { P.seen p.new
        ≡ set_back (P.seen p.old) around.labels.items around.found_module_item outer }
{
    p.leave_body(around);
    p.set_flags(outer);
}

/// Drops what was read, and so its refusal, but one for want of memory or depth, and puts back what stood around it.
#[tactic(auto, using(crate::proofs::Dropped::refused_module_stays))]
pub fn dropped<P: Cursor, X: Drop>(
    p: &mut P,
    around: Around,
    outer: Context,
    read: PResult<X>,
) -> PResult<()>
    requires answered { IfOk read (λ _. outer.module ≡ (P.seen p.old).code.flags.module) }
    requires refused { IfErr read
        (λ e. kind_of e.kind ≢ kinds.OutOfMemory → outer.module
        ≡ (P.seen p.old).code.flags.module) }
    ensures { Gives
        (dropped_in around.labels.items around.found_module_item outer (ended read (P.seen p.old)))
        result (P.seen p.new) }
{
    if let Err(error) = read {
        if stays_refused(p, &error) {
            return Err(error);
        }
    }
    put_back(p, around, outer);
    Ok(())
}

/// Reads an expression and drops it.
#[tactic(auto, unfolding(swc_ecma_parser_reader::specs::Expressions::inside), using(crate::proofs::Dropped::expr_passes, crate::proofs::Dropped::module_behind_answer))]
fn attempted<P: Cursor, T: Trees, G: Readers<P, T>>(g: &G, t: &MakerOf<T>, p: &mut P) -> PResult<()>
    requires { G.ready g.now }
    ensures { Gives
        (reader.attempted (reader.within with_in (rules.expr (G.depth g.now) expression))
        (P.seen p.old)) result (P.seen p.new) }
{
    let around = p.copy_around()?;
    let outer = p.flags();
    let read = inside(g, t, p, Class::Expression);
    dropped(p, around, outer, read)
}

/// Takes tokens up to an end, which is read, or up to an error token behind one of them.
#[tactic(auto, unfolding(swc_ecma_parser_reader::specs::Recovery::up_to_end), using(crate::proofs::UpToEnd::end_semicolon, crate::proofs::UpToEnd::end_here, crate::proofs::UpToEnd::end_refused, crate::proofs::UpToEnd::end_before_error, crate::proofs::UpToEnd::end_more, crate::proofs::UpToEnd::any_shorter))]
fn up_to_end<P: Cursor>(p: &mut P) -> PResult<()>
    ensures { Gives (recovery.up_to_end (P.seen p.old)) result (P.seen p.new) }
{
    'tokens: loop {
        if p.sees(TokenKind::Semi) {
            return p.skip();
        }
        if can_end(p) {
            return Ok(());
        }
        p.pass()?;
        if p.sees(TokenKind::Error) {
            return Ok(());
        }
    }
}

/// The end of a declaration. Where it is missing, an expression and what follows it up to an end is dropped with a fault.
#[tactic(auto, unfolding(swc_ecma_parser_reader::specs::Recovery::declaration_end, swc_ecma_parser_reader::specs::Recovery::no_end))]
pub fn declaration_end<P: Cursor, T: Trees, G: Readers<P, T>>(
    g: &G,
    t: &MakerOf<T>,
    p: &mut P,
) -> PResult<()>
    requires { G.ready g.now }
    ensures { Gives
        (recovery.declaration_end (rules.expr (G.depth g.now) expression) (P.seen p.old)) result
        (P.seen p.new) }
{
    if p.sees(TokenKind::Semi) {
        return p.skip();
    }
    if can_end(p) {
        return Ok(());
    }
    let span = p.span();
    p.fault(SyntaxError::TS1005, span)?;
    attempted(g, t, p)?;
    up_to_end(p)
}
