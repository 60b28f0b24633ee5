//! What stands before the key of a member: ECMA-262, section 15.7.

ghost use Rattle.std.specs.Prelude.{◌≡◌, ◌&&◌, codes};
ghost use Rattle.swc_ecma_parser_functions.specs.Methods.{form_of};
ghost use Rattle.swc_ecma_parser_grammar.specs.Ends as ends;
ghost use Rattle.swc_ecma_parser_grammar.specs.Follows as follows;
ghost use Rattle.swc_ecma_parser_grammar.specs.Looks as looks;
ghost use Rattle.swc_ecma_parser_grammar.specs.language.Classes as classes;
ghost use Rattle.swc_ecma_parser_input.specs.Place as place;
ghost use Rattle.swc_ecma_parser_reader.specs.Members as members;
ghost use Rattle.swc_ecma_parser_reader.specs.State.{Gives, GivesAs};
ghost use Rattle.swc_ecma_parser_token.specs.declared.kind.TokenKind.TheVariants as kind;

use swc_ecma_parser_cursor::Cursor;
use swc_ecma_parser_error::PResult;
use swc_ecma_parser_functions::function::{Manner, star};
use swc_ecma_parser_functions::methods::MethodForm;
use swc_ecma_parser_token::TokenKind;

/// Whether the word that stands here is a key, by what stands behind it.
#[tactic(auto, unfolding(swc_ecma_parser_grammar::specs::language::Classes::ends_key))]
fn is_key<P: Cursor>(p: &P) -> bool
    ensures { result ≡ classes.ends_key (place.after (P.seen p.now).at) }
{
    p.next_sees(TokenKind::LParen)
        || p.next_sees(TokenKind::Assign)
        || p.next_sees(TokenKind::RBrace)
        || p.next_sees(TokenKind::Semi)
}

/// Whether a field that the word here names can end behind it.
#[tactic(auto, unfolding(swc_ecma_parser_grammar::specs::Ends::can_end))]
fn next_can_end<P: Cursor>(p: &P) -> bool
    ensures { result ≡ ends.can_end (place.after (P.seen p.now).at) }
{
    p.next_sees(TokenKind::End) || p.next_sees(TokenKind::RBrace) || p.next_had_line_break()
}

/// Whether `static` stands here and is no key.
#[tactic(auto, unfolding(swc_ecma_parser_grammar::specs::language::Classes::is_static_word))]
fn is_static_word<P: Cursor>(p: &P) -> bool
    ensures { result ≡ classes.is_static_word (P.seen p.now).at }
{
    p.word_at("static") && !is_key(p)
}

/// `static`, where it is no key.
#[tactic(auto, unfolding(swc_ecma_parser_reader::specs::Members::static_word))]
pub fn static_word<P: Cursor>(p: &mut P) -> PResult<bool>
    ensures { Gives (members.static_word (P.seen p.old)) result (P.seen p.new) }
{
    if !is_static_word(p) {
        return Ok(false);
    }
    p.skip()?;
    Ok(true)
}

/// Whether `accessor` stands here and begins a field with a getter and a setter.
#[tactic(auto, unfolding(swc_ecma_parser_grammar::specs::language::Classes::is_accessor_word))]
pub fn is_accessor_word<P: Cursor>(p: &P) -> bool
    ensures { result ≡ classes.is_accessor_word (P.seen p.now).code (P.seen p.now).at }
{
    p.auto_accessors() && p.word_at("accessor") && !is_key(p) && !next_can_end(p)
}

/// Whether `get` or `set` stands here and an accessor goes on behind it.
#[tactic(auto, unfolding(swc_ecma_parser_reader::specs::Members::begins_accessor))]
fn begins_accessor<P: Cursor>(p: &P, text: &'static str) -> bool
    ensures { result ≡ members.begins_accessor text.now (P.seen p.now).at }
{
    p.word_at(text) && !is_key(p) && !(p.next_sees(TokenKind::Mul) && p.next_had_line_break())
}

/// Whether `async` stands here, and on its line what it makes async.
#[tactic(auto, unfolding(swc_ecma_parser_reader::specs::Members::begins_async_member))]
fn begins_async_member<P: Cursor>(p: &P) -> bool
    ensures { result ≡ members.begins_async_member (P.seen p.now).at }
{
    p.word_at("async") && !is_key(p) && !next_can_end(p)
}

/// Whether one of these words or `*` stands before a key.
#[tactic(auto, unfolding(swc_ecma_parser_reader::specs::Members::begins_words))]
pub fn begins_words<P: Cursor>(p: &P) -> bool
    ensures { result ≡ members.begins_words (P.seen p.now).at }
{
    begins_accessor(p, "get")
        || begins_accessor(p, "set")
        || begins_async_member(p)
        || p.sees(TokenKind::Mul)
}

/// Whether a `static` behind another word and a block stand here.
pub fn begins_static_block<P: Cursor>(p: &P) -> bool
    ensures { result
        ≡ (follows.word_at (codes "static") (P.seen p.now).at
        && looks.sees kind.LBrace (place.after (P.seen p.now).at)) }
{
    p.word_at("static") && p.next_sees(TokenKind::LBrace)
}

/// Whether a static block goes on behind `accessor`, with a `static` of its own or without it.
#[tactic(auto, unfolding(swc_ecma_parser_reader::specs::Members::begins_block))]
pub fn begins_block<P: Cursor>(p: &P, is_static: bool) -> bool
    ensures { result ≡ members.begins_block is_static (P.seen p.now).at }
{
    (is_static && p.sees(TokenKind::LBrace)) || begins_static_block(p)
}

/// The words before a key, if any stand there.
#[tactic(auto, unfolding(swc_ecma_parser_reader::specs::Members::member_words, swc_ecma_parser_reader::specs::Methods::starred))]
pub fn member_words<P: Cursor>(p: &mut P) -> PResult<MethodForm>
    ensures { GivesAs form_of (members.member_words (P.seen p.old)) result (P.seen p.new) }
{
    if begins_accessor(p, "get") {
        p.skip()?;
        return Ok(MethodForm::Getter);
    }
    if begins_accessor(p, "set") {
        p.skip()?;
        return Ok(MethodForm::Setter);
    }
    let is_async = begins_async_member(p);
    if is_async {
        p.skip()?;
    }
    let is_generator = star(p)?;
    Ok(MethodForm::Method(Manner {
        is_async,
        is_generator,
    }))
}
