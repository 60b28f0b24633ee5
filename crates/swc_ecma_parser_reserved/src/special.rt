//! Texts that are reserved anywhere, by their length and first bytes: a plain name is told from them by one or two tests.

ghost use Rattle.std.specs.Prelude.{◌≡◌};
ghost use Rattle.swc_ecma_parser_reserved.specs.Special as special;

/// Whether a text is one of the words of four bytes that begin with `e`, by the second.
#[inline]
#[tactic(auto, unfolding(crate::specs::Special::of_e_and_three))]
fn of_e_and_three(text: &str, second: u8) -> bool
    ensures { result ≡ special.of_e_and_three text.now second }
{
    match second {
        b'l' => text == "else",
        b'n' => text == "enum",
        _ => false,
    }
}

/// Whether a text is one of the words of four bytes that begin with `t`, by the second.
#[inline]
#[tactic(auto, unfolding(crate::specs::Special::of_t_and_three))]
fn of_t_and_three(text: &str, second: u8) -> bool
    ensures { result ≡ special.of_t_and_three text.now second }
{
    match second {
        b'h' => text == "this",
        b'r' => text == "true",
        _ => false,
    }
}

/// Whether a text is one of the words of five bytes that begin with `c`, by the second.
#[inline]
#[tactic(auto, unfolding(crate::specs::Special::of_c_and_four))]
fn of_c_and_four(text: &str, second: u8) -> bool
    ensures { result ≡ special.of_c_and_four text.now second }
{
    match second {
        b'a' => text == "catch",
        b'l' => text == "class",
        b'o' => text == "const",
        _ => false,
    }
}

/// Whether a text is one of the words of seven bytes that begin with `p`, by the second.
#[inline]
#[tactic(auto, unfolding(crate::specs::Special::of_p_and_six))]
fn of_p_and_six(text: &str, second: u8) -> bool
    ensures { result ≡ special.of_p_and_six text.now second }
{
    match second {
        b'a' => text == "package",
        b'r' => text == "private",
        _ => false,
    }
}

/// Whether a text is one of the words of two bytes, by the second.
#[inline]
#[tactic(auto, unfolding(crate::specs::Special::of_two))]
fn of_two(text: &str, second: u8) -> bool
    ensures { result ≡ special.of_two text.now second }
{
    match second {
        b'f' => text == "if",
        b'n' => text == "in",
        b'o' => text == "do",
        _ => false,
    }
}

/// Whether a text is one of the words of three bytes, by the first.
#[inline]
#[tactic(auto, unfolding(crate::specs::Special::of_three))]
fn of_three(text: &str, first: u8) -> bool
    ensures { result ≡ special.of_three text.now first }
{
    match first {
        b'f' => text == "for",
        b'l' => text == "let",
        b'n' => text == "new",
        b't' => text == "try",
        b'v' => text == "var",
        _ => false,
    }
}

/// Whether a text is one of the words of four bytes, by the first two.
#[inline]
#[tactic(auto, unfolding(crate::specs::Special::of_four))]
fn of_four(text: &str, first: u8, second: u8) -> bool
    ensures { result ≡ special.of_four text.now first second }
{
    match first {
        b'c' => text == "case",
        b'e' => of_e_and_three(text, second),
        b'n' => text == "null",
        b't' => of_t_and_three(text, second),
        b'v' => text == "void",
        b'w' => text == "with",
        _ => false,
    }
}

/// Whether a text is one of the words of five bytes, by the first two.
#[inline]
#[tactic(auto, unfolding(crate::specs::Special::of_five))]
fn of_five(text: &str, first: u8, second: u8) -> bool
    ensures { result ≡ special.of_five text.now first second }
{
    match first {
        b'a' => text == "await",
        b'b' => text == "break",
        b'c' => of_c_and_four(text, second),
        b'f' => text == "false",
        b's' => text == "super",
        b't' => text == "throw",
        b'w' => text == "while",
        b'y' => text == "yield",
        _ => false,
    }
}

/// Whether a text is one of the words of six bytes, by the first.
#[inline]
#[tactic(auto, unfolding(crate::specs::Special::of_six))]
fn of_six(text: &str, first: u8) -> bool
    ensures { result ≡ special.of_six text.now first }
{
    match first {
        b'd' => text == "delete",
        b'e' => text == "export",
        b'i' => text == "import",
        b'p' => text == "public",
        b'r' => text == "return",
        b's' => text == "switch",
        b't' => text == "typeof",
        _ => false,
    }
}

/// Whether a text is one of the words of seven bytes, by the first two.
#[inline]
#[tactic(auto, unfolding(crate::specs::Special::of_seven))]
fn of_seven(text: &str, first: u8, second: u8) -> bool
    ensures { result ≡ special.of_seven text.now first second }
{
    match first {
        b'd' => text == "default",
        b'e' => text == "extends",
        b'f' => text == "finally",
        b'p' => of_p_and_six(text, second),
        _ => false,
    }
}

/// Whether a text is one of the words of eight bytes, by the first.
#[inline]
#[tactic(auto, unfolding(crate::specs::Special::of_eight))]
fn of_eight(text: &str, first: u8) -> bool
    ensures { result ≡ special.of_eight text.now first }
{
    match first {
        b'c' => text == "continue",
        b'd' => text == "debugger",
        b'f' => text == "function",
        _ => false,
    }
}

/// Whether a text is one of the words of nine bytes, by the first.
#[inline]
#[tactic(auto, unfolding(crate::specs::Special::of_nine))]
fn of_nine(text: &str, first: u8) -> bool
    ensures { result ≡ special.of_nine text.now first }
{
    match first {
        b'i' => text == "interface",
        b'p' => text == "protected",
        _ => false,
    }
}

/// Whether a text is one of the words of ten bytes, by the second.
#[inline]
#[tactic(auto, unfolding(crate::specs::Special::of_ten))]
fn of_ten(text: &str, second: u8) -> bool
    ensures { result ≡ special.of_ten text.now second }
{
    match second {
        b'm' => text == "implements",
        b'n' => text == "instanceof",
        _ => false,
    }
}

/// Whether a text of a length is one of the words, by its first two bytes.
#[inline]
#[tactic(auto, unfolding(crate::specs::Special::of_length))]
fn of_length(text: &str, length: usize, first: u8, second: u8) -> bool
    ensures { result ≡ special.of_length text.now length first second }
{
    match length {
        2 => of_two(text, second),
        3 => of_three(text, first),
        4 => of_four(text, first, second),
        5 => of_five(text, first, second),
        6 => of_six(text, first),
        7 => of_seven(text, first, second),
        8 => of_eight(text, first),
        9 => of_nine(text, first),
        10 => of_ten(text, second),
        _ => false,
    }
}

/// Whether a text is reserved anywhere, or `await`.
#[tactic(auto, unfolding(crate::specs::Special::is_special))]
pub fn is_special(text: &str) -> bool
    ensures { result ≡ special.is_special text.now }
{
    let bytes = text.as_bytes();
    if bytes.len() < 2 {
        false
    } else {
        of_length(text, bytes.len(), bytes[0], bytes[1])
    }
}
