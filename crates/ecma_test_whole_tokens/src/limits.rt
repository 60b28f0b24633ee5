//! How much may be open.

use crate::written::{let_go, lexer};
use std::alloc::{AllocError, Global};
use swc_ecma_parser_error::SyntaxError;
use swc_ecma_parser_input::Tokens;
use swc_ecma_parser_token::Token;
use swc_ecma_parser_whole_lexer::{Goal, WholeLexer};

fn is_too_deep(token: &Token) -> bool {
    if let Token::Error(error) = token {
        return matches!(error.kind, SyntaxError::TooDeep);
    }
    false
}

/// The number of tokens before the one that is refused, of so many.
fn read_before(lexer: &mut WholeLexer, count: usize) -> Option<usize> {
    for read in 0..count {
        let token = lexer.next()?;
        let is_refused = is_too_deep(&token.token);
        let_go(token);
        if is_refused {
            return Some(read);
        }
    }
    None
}

/// So many brackets, and the number of those behind which one is refused.
fn first_refused(alloc: Global, count: usize) -> Result<Option<usize>, AllocError> {
    let mut text = String::new(alloc);
    for _ in 0..count {
        text.push('(')?;
    }
    let mut lexer = lexer(alloc, Goal::Script, text.as_str(), false);
    let read = read_before(&mut lexer, count);
    let_go(lexer);
    Ok(read)
}

#[test]
fn so_many_brackets_may_be_open(rt: HostRuntime) {
    assert_eq!(rt; first_refused(rt.alloc(), 4096), Ok(None));
    assert_eq!(rt; first_refused(rt.alloc(), 4097), Ok(Some(4096)));
}
