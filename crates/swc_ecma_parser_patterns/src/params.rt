//! The parameters of functions: ECMA-262, section 15.1.

ghost use Rattle.std.specs.Prelude.{map};
ghost use Rattle.swc_ecma_parser_reader.specs.Reader as rules;
ghost use Rattle.swc_ecma_parser_reader.specs.State.{GivesAs};

use crate::pat::{inner_pat, rest};
use swc_ecma_parser_cursor::Cursor;
use swc_ecma_parser_error::PResult;
use swc_ecma_parser_shared::grammar::Part;
use swc_ecma_parser_shared::readers::Readers;
use swc_ecma_parser_shared::steps::pushed;
use swc_ecma_parser_token::TokenKind;
use swc_ecma_parser_trees::{BuildsPattern, MakerOf};

/// The patterns of parameters, from `(` to `)`. Nothing stands behind the rest.
#[tactic(auto, unfolding(swc_ecma_parser_reader::specs::Patterns::parameter_list), using(swc_ecma_parser_reader::proofs::patterns::Loops::parameters_done, swc_ecma_parser_reader::proofs::patterns::Loops::parameters_last, swc_ecma_parser_reader::proofs::patterns::Loops::parameters_more, std::proofs::lemmas::List::map_push))]
pub fn parameters<P: Cursor, T: BuildsPattern, G: Readers<P, T>>(
    g: &G,
    t: &MakerOf<T>,
    p: &mut P,
) -> PResult<Vec<T::Pat>>
    requires { G.ready g.now }
    ensures { GivesAs (λ found. map T.pat_of found.items)
        (rules.parameters (G.depth g.now) (P.seen p.old)) result (P.seen p.new) }
{
    p.expect(TokenKind::LParen, "(")?;
    let mut found = Vec::new(t.alloc);
    'parameters: loop {
        if p.sees(TokenKind::RParen) {
            p.skip()?;
            return Ok(found);
        }
        if p.sees(TokenKind::DotDotDot) {
            let rest = rest(g, t, p)?;
            pushed(p, &mut found, rest)?;
            p.expect(TokenKind::RParen, ")")?;
            return Ok(found);
        }
        let parameter = inner_pat(g, t, p, Part::Element)?;
        pushed(p, &mut found, parameter)?;
        if p.sees(TokenKind::RParen) {
            continue;
        }
        p.expect(TokenKind::Comma, ",")?;
    }
}
