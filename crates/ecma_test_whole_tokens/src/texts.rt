//! What tokens hold.

use crate::written::{Shown, reads};
use swc_ecma_parser_whole_lexer::Goal;

#[test]
fn a_regular_expression_has_a_body_and_flags(rt: HostRuntime) {
    let wanted = r#"regex "[/]\\/" "u"|"#;
    reads(
        &rt,
        rt.alloc(),
        Goal::Script,
        Shown::Texts,
        r"/[/]\//u",
        wanted,
    );
    let wanted = "UnterminatedRegxp|a|";
    reads(&rt, rt.alloc(), Goal::Script, Shown::Texts, "/a", wanted);
    let wanted = "UnterminatedRegxp|LBracket|a|";
    reads(&rt, rt.alloc(), Goal::Script, Shown::Texts, "/[a\n", wanted);
}

#[test]
fn a_template_has_raw_and_cooked_texts(rt: HostRuntime) {
    let wanted = r#"whole "a\nb\nc\n" Some("a\nb\nc\n")|"#;
    reads(
        &rt,
        rt.alloc(),
        Goal::Script,
        Shown::Texts,
        "`a\r\nb\rc\n`",
        wanted,
    );
    let wanted = r#"whole "\\x41\\u{42}\\u0043\\\n\\`\\$" Some("ABC`$")|"#;
    reads(
        &rt,
        rt.alloc(),
        Goal::Script,
        Shown::Texts,
        "`\\x41\\u{42}\\u0043\\\r\n\\`\\$`",
        wanted,
    );
    let wanted = r#"head "\\x61" Some("a")|a|tail "" Some("")|"#;
    reads(
        &rt,
        rt.alloc(),
        Goal::Script,
        Shown::Texts,
        r"`\x61${a}`",
        wanted,
    );
}

#[test]
fn an_escape_that_is_none_is_not_cooked(rt: HostRuntime) {
    reads(
        &rt,
        rt.alloc(),
        Goal::Script,
        Shown::Texts,
        r"`\x4`",
        r#"whole "\\x4" None|"#,
    );
    reads(
        &rt,
        rt.alloc(),
        Goal::Script,
        Shown::Texts,
        r"`\01`",
        r#"whole "\\01" None|"#,
    );
    reads(
        &rt,
        rt.alloc(),
        Goal::Script,
        Shown::Texts,
        r"`\1`",
        r#"whole "\\1" None|"#,
    );
    let wanted = r#"head "\\u{110000}" None|a|tail "\\u" None|"#;
    reads(
        &rt,
        rt.alloc(),
        Goal::Script,
        Shown::Texts,
        r"`\u{110000}${a}\u`",
        wanted,
    );
    reads(
        &rt,
        rt.alloc(),
        Goal::Script,
        Shown::Texts,
        "`a",
        "UnterminatedTpl|a|",
    );
}

#[test]
fn a_name_says_what_its_escapes_do(rt: HostRuntime) {
    reads(
        &rt,
        rt.alloc(),
        Goal::Script,
        Shown::Texts,
        r"\u0061b\u{63}",
        "escaped abc|",
    );
    reads(
        &rt,
        rt.alloc(),
        Goal::Script,
        Shown::Texts,
        r"v\u0061r",
        "escaped var|",
    );
    reads(
        &rt,
        rt.alloc(),
        Goal::Script,
        Shown::Texts,
        r"\u0031",
        "UnexpectedChar|u0031|",
    );
}

#[test]
fn old_numbers_and_strings_are_read(rt: HostRuntime) {
    let wanted = "number 017|Comma|number 08.5e1|Comma|number 00|Dot|a|";
    reads(
        &rt,
        rt.alloc(),
        Goal::Script,
        Shown::Texts,
        "017,08.5e1,00.a",
        wanted,
    );
    let wanted = "InvalidNumber|Comma|InvalidNumber|";
    reads(
        &rt,
        rt.alloc(),
        Goal::Script,
        Shown::Texts,
        "08n,08_1",
        wanted,
    );
    let wanted = r#"string "\u{1}8S4A89"|"#;
    reads(
        &rt,
        rt.alloc(),
        Goal::Script,
        Shown::Texts,
        r"'\18\1234\101\8\9'",
        wanted,
    );
    reads(
        &rt,
        rt.alloc(),
        Goal::Script,
        Shown::Texts,
        r"'\x4'",
        "InvalidStrEscape|",
    );
}
