//! Where a slash is taken for something else than in ECMA-262: the tokens before it alone decide.

use crate::written::{Shown, reads};
use swc_ecma_parser_whole_lexer::Goal;

#[test]
fn a_slash_begins_behind_words_that_are_names(rt: HostRuntime) {
    let wanted = "Await 0..5|Regex 6..11|Num 12..13|";
    reads(
        &rt,
        rt.alloc(),
        Goal::Script,
        Shown::Kinds,
        "await / 1 / 2",
        wanted,
    );
    let wanted = "Yield 0..5|Regex 6..11|Num 12..13|";
    reads(
        &rt,
        rt.alloc(),
        Goal::Script,
        Shown::Kinds,
        "yield / 1 / 2",
        wanted,
    );
}

#[test]
fn a_slash_divides_behind_a_statement_without_its_semicolon(rt: HostRuntime) {
    let wanted =
        "Ident 0..1|Colon 1..2|For 3..6|LParen 7..8|Semi 8..9|Semi 9..10|RParen 10..11|LBrace 12..13|Break 14..19|Ident 20..21|Div 22..23|Ident 23..24|Div 24..25|Ident 25..26|RBrace 27..28|";
    reads(
        &rt,
        rt.alloc(),
        Goal::Script,
        Shown::Kinds,
        "a: for (;;) { break a\n/b/g }",
        wanted,
    );
    let wanted = "Let 0..3|Ident 4..5|Div 6..7|Ident 7..8|Div 8..9|Ident 9..10|";
    reads(
        &rt,
        rt.alloc(),
        Goal::Script,
        Shown::Kinds,
        "let a\n/b/g",
        wanted,
    );
    let wanted = "Import 0..6|Str 7..10|Div 11..12|Ident 12..13|Div 13..14|Ident 14..15|";
    reads(
        &rt,
        rt.alloc(),
        Goal::Module,
        Shown::Kinds,
        "import 'a'\n/b/g",
        wanted,
    );
}
