//! Where what stands before may end: ECMA-262, section 12.10.

ghost use Rattle.std.specs.Prelude.{◌≡◌};
ghost use Rattle.swc_ecma_parser_grammar.specs.Ends as ends;

use swc_ecma_parser_cursor::Cursor;
use swc_ecma_parser_token::TokenKind;

/// Whether it may end here without `;`.
#[tactic(auto, unfolding(swc_ecma_parser_grammar::specs::Ends::can_end))]
pub fn can_end<P: Cursor>(p: &P) -> bool
    ensures { result ≡ ends.can_end (P.seen p.now).at }
{
    p.sees(TokenKind::End) || p.sees(TokenKind::RBrace) || p.had_line_break()
}

/// Whether it ends here, as nothing more of it can stand here.
#[tactic(auto, unfolding(swc_ecma_parser_grammar::specs::Ends::ends_at))]
pub fn ends_at<P: Cursor>(p: &P) -> bool
    ensures { result ≡ ends.ends_at (P.seen p.now).at }
{
    p.sees(TokenKind::Semi) || can_end(p)
}
