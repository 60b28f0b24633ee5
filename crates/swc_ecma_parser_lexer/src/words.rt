//! Keywords by their length and first bytes: at most one can be spelled as a name is, so that one comparison tells.

ghost use Rattle.std.specs.Prelude.{◌≡◌, codes};
ghost use Rattle.std.specs.Str.{bytes_eq};
ghost use Rattle.swc_ecma_parser_lexer.specs.Make as read;
ghost use Rattle.swc_ecma_parser_lexer.specs.Candidates as candidates;

use swc_ecma_parser_token::Keyword;

/// The keyword of two bytes, by the second.
#[tactic(auto, unfolding(crate::specs::Candidates::of_two))]
fn of_two(second: u8) -> Option<Keyword>
    ensures { result ≡ candidates.of_two second }
{
    match second {
        b'f' => Some(Keyword::If),
        b'n' => Some(Keyword::In),
        b'o' => Some(Keyword::Do),
        _ => None,
    }
}

/// The keyword of three bytes, by the first.
#[tactic(auto, unfolding(crate::specs::Candidates::of_three))]
fn of_three(first: u8) -> Option<Keyword>
    ensures { result ≡ candidates.of_three first }
{
    match first {
        b'f' => Some(Keyword::For),
        b'l' => Some(Keyword::Let),
        b'n' => Some(Keyword::New),
        b't' => Some(Keyword::Try),
        b'v' => Some(Keyword::Var),
        _ => None,
    }
}

/// The keyword of four bytes, by the first.
#[tactic(auto, unfolding(crate::specs::Candidates::of_four))]
fn of_four(first: u8) -> Option<Keyword>
    ensures { result ≡ candidates.of_four first }
{
    match first {
        b'c' => Some(Keyword::Case),
        b'e' => Some(Keyword::Else),
        b't' => Some(Keyword::This),
        b'v' => Some(Keyword::Void),
        b'w' => Some(Keyword::With),
        _ => None,
    }
}

/// The keyword of five bytes that begins with `c`, by the second.
#[tactic(auto, unfolding(crate::specs::Candidates::of_c_and_four))]
fn of_c_and_four(second: u8) -> Option<Keyword>
    ensures { result ≡ candidates.of_c_and_four second }
{
    match second {
        b'a' => Some(Keyword::Catch),
        b'l' => Some(Keyword::Class),
        b'o' => Some(Keyword::Const),
        _ => None,
    }
}

/// The keyword of five bytes, by the first two.
#[tactic(auto, unfolding(crate::specs::Candidates::of_five))]
fn of_five(first: u8, second: u8) -> Option<Keyword>
    ensures { result ≡ candidates.of_five first second }
{
    match first {
        b'a' => Some(Keyword::Await),
        b'b' => Some(Keyword::Break),
        b'c' => of_c_and_four(second),
        b's' => Some(Keyword::Super),
        b't' => Some(Keyword::Throw),
        b'w' => Some(Keyword::While),
        b'y' => Some(Keyword::Yield),
        _ => None,
    }
}

/// The keyword of six bytes, by the first.
#[tactic(auto, unfolding(crate::specs::Candidates::of_six))]
fn of_six(first: u8) -> Option<Keyword>
    ensures { result ≡ candidates.of_six first }
{
    match first {
        b'd' => Some(Keyword::Delete),
        b'e' => Some(Keyword::Export),
        b'i' => Some(Keyword::Import),
        b'r' => Some(Keyword::Return),
        b's' => Some(Keyword::Switch),
        b't' => Some(Keyword::TypeOf),
        _ => None,
    }
}

/// The keyword of seven bytes, by the first.
#[tactic(auto, unfolding(crate::specs::Candidates::of_seven))]
fn of_seven(first: u8) -> Option<Keyword>
    ensures { result ≡ candidates.of_seven first }
{
    match first {
        b'd' => Some(Keyword::Default),
        b'e' => Some(Keyword::Extends),
        b'f' => Some(Keyword::Finally),
        _ => None,
    }
}

/// The keyword of eight bytes, by the first.
#[tactic(auto, unfolding(crate::specs::Candidates::of_eight))]
fn of_eight(first: u8) -> Option<Keyword>
    ensures { result ≡ candidates.of_eight first }
{
    match first {
        b'c' => Some(Keyword::Continue),
        b'd' => Some(Keyword::Debugger),
        b'f' => Some(Keyword::Function),
        _ => None,
    }
}

/// The only keyword of a length that may begin with two bytes.
#[tactic(auto, unfolding(crate::specs::Candidates::of_length))]
fn of_length(length: usize, first: u8, second: u8) -> Option<Keyword>
    ensures { result ≡ candidates.of_length length first second }
{
    match length {
        2 => of_two(second),
        3 => of_three(first),
        4 => of_four(first),
        5 => of_five(first, second),
        6 => of_six(first),
        7 => of_seven(first),
        8 => of_eight(first),
        10 => Some(Keyword::InstanceOf),
        _ => None,
    }
}

/// The only keyword that a name may be.
#[tactic(auto, unfolding(crate::specs::Candidates::candidate))]
fn candidate(name: &str) -> Option<Keyword>
    ensures { result ≡ candidates.candidate name.now }
{
    let bytes = name.as_bytes();
    if bytes.len() < 2 {
        None
    } else {
        of_length(bytes.len(), bytes[0], bytes[1])
    }
}

/// The keyword that is spelled so.
pub fn keyword_of(name: &str) -> Option<Keyword>
    ensures { result ≡ read.keyword_in read.keywords name.now }
{
    match candidate(name) {
        Some(keyword) => if keyword.as_str() == name {
            Some(keyword)
        } else {
            None
        },
        None => None,
    }
}

/// Whether a name is `null`: most are told by their length or their first byte.
#[inline]
pub fn is_null(name: &str) -> bool
    ensures { result ≡ bytes_eq name.now (codes "null") }
{
    let bytes = name.as_bytes();
    bytes.len() == 4 && bytes[0] == b'n' && name == "null"
}

/// Whether a name is `true`: most are told by their length or their first byte.
#[inline]
pub fn is_true(name: &str) -> bool
    ensures { result ≡ bytes_eq name.now (codes "true") }
{
    let bytes = name.as_bytes();
    bytes.len() == 4 && bytes[0] == b't' && name == "true"
}

/// Whether a name is `false`: most are told by their length or their first byte.
#[inline]
pub fn is_false(name: &str) -> bool
    ensures { result ≡ bytes_eq name.now (codes "false") }
{
    let bytes = name.as_bytes();
    bytes.len() == 5 && bytes[0] == b'f' && name == "false"
}
