//! Comments, the source that a parser gives back, and where a text starts.

use ecma_report::{show, show_item};
use std::alloc::{AllocError, Global};
use std::test::Fail;
use swc_ecma_parser::Parser;
use swc_ecma_parser::common::{BytePos, Comment, CommentKind};
use swc_ecma_parser::error::PResult;
use swc_ecma_parser::input::{Capturing, CommentSource, Context, Syntax, Tokens};
use swc_ecma_parser::lexer::{Lexer, StringInput};

/// A short text at position 0.
fn input(text: &str) -> Result<StringInput<'_>, Fail> {
    if text.len() > 1_000 {
        return Err("too long")?;
    }
    let end = BytePos(text.len() as u32);
    Ok(StringInput::new(text, BytePos(0), end))
}

/// Drops it. A function that drops a parser is proved to do so on each way out, so the tests let go of them by this.
fn let_go<T: Drop>(_: T) {}

/// A lexer, which keeps comments or not.
fn lexer(alloc: Global, input: StringInput<'_>, comments: bool) -> Lexer<'_> {
    Lexer::new(alloc, Syntax::default(), input, comments)
}

fn write_comment(out: &mut String, comment: &Comment) -> Result<(), AllocError> {
    let kind = match comment.kind {
        CommentKind::Line => "Line",
        CommentKind::Block => "Block",
    };
    let low = comment.span.lo.0;
    let high = comment.span.hi.0;
    let text = comment.text.as_str();
    write!(out, "{kind} {low}..{high}:{text};")
}

/// Writes the comments that a parser hands out.
fn write_comments<I: CommentSource>(out: &mut String, parser: &mut Parser<I>) -> PResult<()> {
    let comments = parser.take_comments()?;
    for comment in comments.as_slice() {
        write_comment(out, comment)?;
    }
    out.push('|')?;
    Ok(())
}

/// Writes the comments that a parser hands out before it parses, then, and behind its lines.
fn write_story<I: CommentSource>(
    alloc: Global,
    out: &mut String,
    parser: &mut Parser<I>,
) -> PResult<()> {
    write_comments(out, parser)?;
    write_comments(out, parser)?;
    out.push_str(show(alloc, parser)?.lines.as_str())?;
    write_comments(out, parser)
}

/// The same of a parser that is let go of.
fn told<I: CommentSource>(alloc: Global, parser: Parser<I>) -> PResult<String> {
    let mut parser = parser;
    let mut out = String::new(alloc);
    let written = write_story(alloc, &mut out, &mut parser);
    let_go(parser);
    written?;
    Ok(out)
}

/// A parser that keeps its tokens, over a source that keeps comments.
fn capturing(alloc: Global, input: StringInput<'_>) -> Parser<Capturing<Lexer<'_>>> {
    Parser::new_from(alloc, Capturing::new(alloc, lexer(alloc, input, true)))
}

const COMMENTED: &str = "/* a */ a // b\n; /* c */";

#[test]
fn comments_are_handed_out_once(rt: HostRuntime) -> Result<(), Fail> {
    let alloc = rt.alloc();
    // Two tokens are read ahead.
    let wanted = "Block 0..7: a ;Line 10..14: b;||Script 8..16\n  Expr 8..16\nBlock 17..24: c ;|";
    let kept = Parser::new(alloc, Syntax::default(), input(COMMENTED)?, true);
    assert_eq!(rt; told(alloc, kept)?.as_str(), wanted);
    let found = told(alloc, capturing(alloc, input(COMMENTED)?))?;
    assert_eq!(rt; found.as_str(), wanted);
    let unkept = Parser::new(alloc, Syntax::default(), input(COMMENTED)?, false);
    let wanted = "||Script 8..16\n  Expr 8..16\n|";
    assert_eq!(rt; told(alloc, unkept)?.as_str(), wanted);
    Ok(())
}

/// How many comments a parser hands out, and how many tokens and comments the source has that it gives back then.
fn given_back(alloc: Global, input: StringInput) -> PResult<(usize, usize, usize)> {
    let mut parser = Parser::new_from(alloc, lexer(alloc, input, true));
    let taken = parser.take_comments().map(|it| it.len());
    let mut lexer = parser.into_input();
    let tokens = lexer.next().iter().count();
    let left = lexer.take_comments().map(|it| it.len());
    let_go(lexer);
    Ok((taken?, tokens, left?))
}

#[test]
fn a_source_is_given_back(rt: HostRuntime) -> Result<(), Fail> {
    assert_eq!(rt; given_back(rt.alloc(), input(COMMENTED)?)?, (2, 0, 1));
    assert_eq!(rt; given_back(rt.alloc(), input("a;b;")?)?, (0, 1, 0));
    Ok(())
}

/// What a text at position 5 parses to.
fn behind_others(alloc: Global) -> Result<String, AllocError> {
    let input = StringInput::new("a;", BytePos(5), BytePos(7));
    let mut parser = Parser::new_from(alloc, lexer(alloc, input, false));
    let shown = show(alloc, &mut parser);
    let_go(parser);
    Ok(shown?.lines)
}

#[test]
fn a_text_can_start_anywhere(rt: HostRuntime) -> Result<(), Fail> {
    let found = behind_others(rt.alloc())?;
    assert_eq!(rt; found.as_str(), "Script 5..7\n  Expr 5..7\n");
    Ok(())
}

/// The context behind one item, and whether a third token stands there.
fn left_behind(alloc: Global, input: StringInput<'_>) -> (Context, bool) {
    let mut parser = Parser::new_from(alloc, lexer(alloc, input, false));
    let _ = show_item(alloc, &mut parser);
    let mut source = parser.into_input();
    let context = source.ctx();
    (context, source.next().is_some())
}

#[test]
fn an_import_and_an_export_leave_module_code(rt: HostRuntime) -> Result<(), Fail> {
    let alloc = rt.alloc();
    let before = Context::default();
    let module = Context {
        module: true,
        strict: true,
        ..before
    };
    for (text, wanted) in [
        ("export {}; a b c", (module, true)),
        ("import 'a'; b c", (module, false)),
        ("a; b c d", (before, true)),
        ("export + a", (before, false)),
    ] {
        assert_eq!(rt; left_behind(alloc, input(text)?), wanted);
    }
    Ok(())
}
