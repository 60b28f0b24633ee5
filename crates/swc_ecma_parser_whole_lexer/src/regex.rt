//! Regular expressions: ECMA-262, "Regular Expression Literals" (section 12.9.5).

ghost use Rattle.std.specs.Prelude.{◌≡◌, None, MatchOption};
ghost use Rattle.std.specs.Str.{chars};
ghost use Rattle.swc_ecma_parser_whole_lexer.specs.declared.regex.Body.TheVariants as body;
ghost use Rattle.swc_ecma_parser_whole_lexer.specs.Regex as read;
ghost use Rattle.swc_ecma_parser_whole_lexer.specs.Runs.{HasChars};

use swc_ecma_parser_scan::{first_char, is_line_break};

/// Where in the body of a regular expression a text is.
#[derive(Clone, Copy)]
pub enum Body {
    /// In no class.
    Open,
    /// In `[..]`.
    Class,
    /// Behind a backslash in no class.
    Escape,
    /// Behind a backslash in `[..]`.
    ClassEscape,
}

/// Where one more character leads, which is neither a line break nor the end.
#[tactic(auto, unfolding(crate::specs::Regex::body_behind))]
fn body_behind(body: Body, c: char) -> Body
    ensures { result ≡ read.body_behind body c }
{
    match body {
        Body::Open => if c == '\\' {
            Body::Escape
        } else if c == '[' {
            Body::Class
        } else {
            Body::Open
        },
        Body::Class => if c == '\\' {
            Body::ClassEscape
        } else if c == ']' {
            Body::Open
        } else {
            Body::Class
        },
        Body::Escape => Body::Open,
        Body::ClassEscape => Body::Class,
    }
}

/// Whether `/` ends the body here.
#[tactic(auto, unfolding(crate::specs::Regex::is_end))]
fn is_end(body: Body, c: char) -> bool
    ensures { result ≡ read.is_end body c }
{
    match body {
        Body::Open => c == '/',
        _ => false,
    }
}

/// The text from the last `/` of a regular expression on, whose body a text begins with; none where its line ends before.
pub fn past_body(text: &str) -> Option<&str>
    ensures { let end = read.past_body body.Open (chars text.now) in
        MatchOption result (end ≡ None) (λ rest. HasChars end rest.now) }
{
    let mut body = Body::Open;
    let mut rest = text;
    while let Some((c, behind)) = first_char(rest) {
        if is_line_break(c) {
            return None;
        }
        if is_end(body, c) {
            return Some(rest);
        }
        body = body_behind(body, c);
        rest = behind;
    }
    None
}
