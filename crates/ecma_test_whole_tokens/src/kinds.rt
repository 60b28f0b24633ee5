//! Where a token begins and ends.

use crate::written::{Shown, reads};
use swc_ecma_parser_whole_lexer::Goal;

#[test]
fn a_slash_divides_behind_an_operand(rt: HostRuntime) {
    let wanted = "Ident 0..1|Div 2..3|Ident 4..5|Div 6..7|Ident 8..9|";
    reads(
        &rt,
        rt.alloc(),
        Goal::Script,
        Shown::Kinds,
        "a / b / c",
        wanted,
    );
    let wanted = "LParen 0..1|Ident 1..2|RParen 2..3|Div 4..5|Ident 6..7|Div 7..8|Ident 8..9|";
    reads(
        &rt,
        rt.alloc(),
        Goal::Script,
        Shown::Kinds,
        "(a) / b/g",
        wanted,
    );
    let wanted = "Ident 0..1|DivAssign 2..4|Ident 5..6|Div 6..7|Ident 7..8|";
    reads(
        &rt,
        rt.alloc(),
        Goal::Script,
        Shown::Kinds,
        "a /= b/c",
        wanted,
    );
}

#[test]
fn a_slash_divides_behind_let(rt: HostRuntime) {
    let wanted = "Let 0..3|Div 4..5|Ident 5..6|Div 6..7|Ident 7..8|";
    reads(
        &rt,
        rt.alloc(),
        Goal::Script,
        Shown::Kinds,
        "let\n/a/g",
        wanted,
    );
    let wanted = "Let 0..3|PlusPlus 3..5|Div 6..7|Num 8..9|Div 10..11|Num 12..13|";
    reads(
        &rt,
        rt.alloc(),
        Goal::Script,
        Shown::Kinds,
        "let++ / 1 / 2",
        wanted,
    );
}

#[test]
fn let_declares_patterns_and_names(rt: HostRuntime) {
    let wanted =
        "Let 0..3|LBrace 4..5|If 5..7|Colon 7..8|Ident 9..10|RBrace 10..11|Assign 12..13|Regex 14..17|";
    reads(
        &rt,
        rt.alloc(),
        Goal::Script,
        Shown::Kinds,
        "let {if: a} = /b/",
        wanted,
    );
    let wanted =
        "Let 0..3|Ident 4..9|Function 10..18|Ident 19..20|LParen 20..21|RParen 21..22|LBrace 23..24|RBrace 24..25|Regex 26..29|";
    reads(
        &rt,
        rt.alloc(),
        Goal::Script,
        Shown::Kinds,
        "let async\nfunction f() {} /a/",
        wanted,
    );
}

#[test]
fn a_slash_begins_where_an_operand_must_come(rt: HostRuntime) {
    let wanted = "Ident 0..1|Assign 2..3|Regex 4..8|";
    reads(
        &rt,
        rt.alloc(),
        Goal::Script,
        Shown::Kinds,
        "a = /=/g",
        wanted,
    );
    let wanted = "If 0..2|LParen 3..4|Ident 4..5|RParen 5..6|Regex 7..10|Dot 10..11|Ident 11..12|";
    reads(
        &rt,
        rt.alloc(),
        Goal::Script,
        Shown::Kinds,
        "if (a) /b/.c",
        wanted,
    );
    let wanted = "LBrace 0..1|RBrace 1..2|Regex 3..7|";
    reads(
        &rt,
        rt.alloc(),
        Goal::Script,
        Shown::Kinds,
        "{} /a/g",
        wanted,
    );
    let wanted =
        "Ident 0..1|Assign 2..3|LBrace 4..5|RBrace 5..6|Div 7..8|Ident 8..9|Div 9..10|Ident 10..11|";
    reads(
        &rt,
        rt.alloc(),
        Goal::Script,
        Shown::Kinds,
        "a = {} /b/c",
        wanted,
    );
}

#[test]
fn a_brace_goes_on_with_the_template_that_it_is_in(rt: HostRuntime) {
    let wanted =
        "TemplateHead 0..4|LBrace 4..5|RBrace 5..6|TemplateMiddle 6..10|Ident 10..11|TemplateTail 11..13|";
    reads(
        &rt,
        rt.alloc(),
        Goal::Script,
        Shown::Kinds,
        "`a${{}}b${c}`",
        wanted,
    );
    let wanted =
        "TemplateHead 0..3|TemplateHead 3..6|Ident 6..7|TemplateTail 7..9|TemplateTail 9..11|Div 11..12|Num 12..13|";
    reads(
        &rt,
        rt.alloc(),
        Goal::Script,
        Shown::Kinds,
        "`${`${a}`}`/1",
        wanted,
    );
}

#[test]
fn a_question_mark_takes_a_dot_before_no_digit(rt: HostRuntime) {
    let wanted = "Ident 0..1|QuestionDot 1..3|Ident 3..4|";
    reads(&rt, rt.alloc(), Goal::Script, Shown::Kinds, "a?.b", wanted);
    let wanted = "Ident 0..1|QuestionMark 1..2|Num 2..4|Colon 4..5|Num 5..6|";
    reads(
        &rt,
        rt.alloc(),
        Goal::Script,
        Shown::Kinds,
        "a?.5:1",
        wanted,
    );
}

#[test]
fn marks_tell_what_they_belong_to(rt: HostRuntime) {
    let wanted = "New 0..3|NewDot 3..4|Ident 4..10|Dot 10..11|Ident 11..12|";
    reads(
        &rt,
        rt.alloc(),
        Goal::Script,
        Shown::Kinds,
        "new.target.a",
        wanted,
    );
    let wanted =
        "Class 0..5|LBrace 6..7|Hash 8..9|Ident 9..10|Assign 11..12|HashIn 13..14|Ident 14..15|In 16..18|This 19..23|RBrace 24..25|";
    reads(
        &rt,
        rt.alloc(),
        Goal::Script,
        Shown::Kinds,
        "class { #a = #a in this }",
        wanted,
    );
}

#[test]
fn comments_as_in_html_are_of_scripts(rt: HostRuntime) {
    let wanted = "Ident 0..1|Ident 8..9|";
    reads(
        &rt,
        rt.alloc(),
        Goal::Script,
        Shown::Kinds,
        "a <!-- b\nc",
        "Ident 0..1|Ident 9..10|",
    );
    reads(
        &rt,
        rt.alloc(),
        Goal::Script,
        Shown::Kinds,
        "a\n--> b\nc",
        wanted,
    );
    let wanted = "Ident 0..1|MinusMinus 1..3|Gt 3..4|Ident 4..5|";
    reads(&rt, rt.alloc(), Goal::Script, Shown::Kinds, "a-->b", wanted);
    let wanted = "Ident 0..1|Lt 1..2|Bang 2..3|MinusMinus 3..5|Ident 5..6|";
    reads(
        &rt,
        rt.alloc(),
        Goal::Module,
        Shown::Kinds,
        "a<!--b",
        wanted,
    );
    reads(&rt, rt.alloc(), Goal::Script, Shown::Kinds, "/**/-->b", "");
}
