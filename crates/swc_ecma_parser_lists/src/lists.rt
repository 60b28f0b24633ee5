//! The loop.

ghost use Rattle.std.specs.Prelude.{◌≡◌, Bool, [], map, IsOk};
ghost use Rattle.swc_ecma_parser_grammar.specs.language.Items.{directed, directs_on};
ghost use Rattle.swc_ecma_parser_lists.specs.Ends.{ends_at};
ghost use Rattle.swc_ecma_parser_reader.specs.Reader as rules;
ghost use Rattle.swc_ecma_parser_reader.specs.State as reader;
ghost use Rattle.swc_ecma_parser_reader.specs.State.{GivesAs};

use crate::each::Listed;
use swc_ecma_parser_cursor::Cursor;
use swc_ecma_parser_error::PResult;
use swc_ecma_parser_grammar::Position;
use swc_ecma_parser_input::Context;
use swc_ecma_parser_shared::steps::pushed;
use swc_ecma_parser_token::TokenKind;
use swc_ecma_parser_trees::{MakerOf, Trees};

/// Where a list ends.
#[derive(Clone, Copy)]
pub enum ListEnd {
    /// Before the `}` of a block.
    Brace,
    /// With the tokens.
    Tokens,
}

/// Whether a list ends here.
#[tactic(auto, unfolding(swc_ecma_parser_reader::specs::Reader::closes, swc_ecma_parser_reader::specs::Reader::at_end))]
fn ends<P: Cursor>(p: &P, end: ListEnd) -> bool
    ensures { result ≡ ends_at end (P.seen p.now).at }
{
    match end {
        ListEnd::Brace => p.sees(TokenKind::RBrace) || p.sees(TokenKind::End),
        ListEnd::Tokens => p.sees(TokenKind::End),
    }
}

/// Turns strict what follows a directive that says so, and says whether the next can be a directive too.
fn direct<L: Listed<P, T>, P: Cursor, T: Trees>(p: &mut P, directives: bool, item: &L::Item) -> bool
    ensures state { P.seen p.new
        ≡ reader.coded (directed (P.seen p.old).code directives (L.held item.now)) (P.seen p.old) }
    ensures next { result ≡ directs_on directives (L.held item.now) }
{
    if directives && L::is_use_strict(item) {
        let flags = p.flags();
        p.set_flags(Context {
            strict: true,
            ..flags
        });
    }
    directives && L::can_precede_directive(item)
}

/// What stands behind these, up to the end; `directives` says whether the next can be a directive.
#[tactic(auto, using(swc_ecma_parser_reader::proofs::Loops::items_stop, swc_ecma_parser_reader::proofs::Loops::items_err, swc_ecma_parser_bodies::proofs::Items::body_more, swc_ecma_parser_bodies::proofs::Items::body_next, std::proofs::lemmas::List::map_push))]
pub fn items_behind<L: Listed<P, T>, P: Cursor, T: Trees>(
    t: &MakerOf<T>,
    p: &mut P,
    limit: usize,
    at: Position,
    end: ListEnd,
    before: Vec<L::Item>,
    directives: bool,
) -> PResult<Vec<L::Item>>
    ensures gives { (first : Bool) → directives ≡ rules.directs first (map L.held before.items)
        → GivesAs (λ found. map L.held found.items) (reader.loop (rules.items_turn (L.item limit at) (ends_at end) first) (map L.held before.items) (P.seen p.old)) result (P.seen p.new) }
    ensures outright { (P.seen p.old).at.left ≡ [] → IsOk result }
{
    let mut found = before;
    let mut directives = directives;
    'items: while !ends(p, end) {
        let item = L::read(t, p, limit, at)?;
        directives = direct::<L, P, T>(p, directives, &item);
        pushed(p, &mut found, item)?;
    }
    Ok(found)
}

/// What stands here, up to the end; `directives` says whether the strings that stand first are directives.
#[tactic(auto, unfolding(swc_ecma_parser_reader::specs::Reader::items))]
pub fn items<L: Listed<P, T>, P: Cursor, T: Trees>(
    t: &MakerOf<T>,
    p: &mut P,
    limit: usize,
    at: Position,
    end: ListEnd,
    directives: bool,
) -> PResult<Vec<L::Item>>
    ensures gives { GivesAs (λ found. map L.held found.items)
        (rules.items (L.item limit at) (ends_at end) directives (P.seen p.old)) result
        (P.seen p.new) }
    ensures outright { (P.seen p.old).at.left ≡ [] → IsOk result }
{
    let none = Vec::new(t.alloc);
    items_behind::<L, P, T>(t, p, limit, at, end, none, directives)
}
