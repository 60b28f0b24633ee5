//! What a token that `Lexer` has made is read anew as.

ghost use Rattle.std.specs.Prelude.{◌≡◌, ◌++◌, ℕ, List, IfOk, OnErr, IsSome};
ghost use Rattle.std.specs.Str.{chars};
ghost use Rattle.swc_ecma_parser_token.specs.declared.token.Token.TheVariants as token;
ghost use Rattle.swc_ecma_parser_token.specs.declared.token.Word.TheVariants as word;
ghost use Rattle.swc_ecma_parser_lexer.specs.declared.escape.Escape.TheVariants as escape;
ghost use Rattle.swc_ecma_parser_whole_lexer.specs.Names.{name_said};
ghost use Rattle.swc_ecma_parser_lexer.specs.Make as make;
ghost use Rattle.swc_ecma_parser_whole_lexer.specs.declared.form.Form.TheVariants as form;
ghost use Rattle.swc_ecma_parser_whole_lexer.specs.Forms as read;

use crate::names::{name_said, past_name};
use crate::old::{is_old_string, old_value_of, past_old_number};
use crate::regex::past_body;
use crate::run::{Class, begins_with, behind, is_ahead, past};
use crate::template::{part, past_part};
use std::alloc::{AllocError, Global};
use swc_ecma_parser_common::{Atom, Span};
use swc_ecma_parser_error::{Error, SyntaxError};
use swc_ecma_parser_nesting::Nest;
use swc_ecma_parser_scan::{State, first_char};
use swc_ecma_parser_token::{AssignOp, BinOpToken, Token, TokenKind, Word};

/// What a text is read as, script code or module code: only a script has comments as in HTML.
#[derive(Clone, Copy, Debug, PartialEq, Eq)]
pub enum Goal {
    Script,
    Module,
}

/// What a token is read anew as.
#[derive(Clone, Copy)]
pub enum Form {
    /// What it is.
    Kept,
    /// A comment as in HTML: ECMA-262, section B.1.1.
    Comment,
    /// A regular expression, whose body has so many bytes.
    Regex(usize),
    /// A regular expression that its line ends before.
    OpenRegex,
    /// A part of a template.
    Part { is_first: bool, is_last: bool },
    /// A part of a template without an end.
    OpenPart,
    /// `?.`
    QuestionDot,
    /// The `.` of `new.target`.
    NewDot,
    /// The `#` of a left operand of `in`.
    HashIn,
    /// A name that is written with an escape.
    EscapedName,
    /// A number in an old form.
    OldNumber,
    /// A string with old escapes, and its quote.
    OldString(char),
}

/// What a text begins with, read anew, and the text behind it.
#[derive(Clone, Copy)]
pub struct Anew<'a> {
    pub form: Form,
    pub rest: &'a str,
}

/// The text before the rest of it.
pub fn before<'a>(text: &'a str, rest: &str) -> &'a str
    requires { (taken : List ℕ) × (text.now ≡ taken ++ rest.now) }
    ensures { text.entry.now ≡ result.now ++ rest.now }
{
    &text[..text.len() - rest.len()]
}

/// A regular expression at the start of a text.
#[tactic(auto, unfolding(crate::specs::Forms::regex))]
fn regex<'a>(text: &'a str, rest: &'a str) -> Anew<'a>
    ensures { read.IsRead (read.regex (chars text.entry.now) (chars rest.entry.now)) result }
{
    let body = behind(text);
    match past_body(body) {
        Some(end) => Anew {
            form: Form::Regex(body.len() - end.len()),
            rest: past(Class::NamePart, behind(end)),
        },
        None => Anew {
            form: Form::OpenRegex,
            rest,
        },
    }
}

/// A part of a template at the start of a text.
#[tactic(auto, unfolding(crate::specs::Forms::template))]
fn template<'a>(is_first: bool, text: &'a str, rest: &'a str) -> Anew<'a>
    ensures { read.IsRead (read.template is_first (chars text.entry.now) (chars rest.entry.now)) result }
{
    match past_part(behind(text)) {
        Some(end) => Anew {
            form: Form::Part {
                is_first,
                is_last: end.is_last,
            },
            rest: if end.is_last {
                behind(end.rest)
            } else {
                behind(behind(end.rest))
            },
        },
        None => Anew {
            form: Form::OpenPart,
            rest,
        },
    }
}

/// A name with an escape at the start of a text.
#[tactic(auto, unfolding(crate::specs::Forms::name))]
fn name<'a>(text: &'a str, rest: &'a str) -> Anew<'a>
    ensures { read.IsRead (read.name (chars text.entry.now) (chars rest.entry.now)) result }
{
    match past_name(text) {
        Some(rest) => Anew {
            form: Form::EscapedName,
            rest,
        },
        None => kept(rest),
    }
}

#[tactic(auto, unfolding(crate::specs::Forms::old_number))]
fn old_number<'a>(text: &'a str, rest: &'a str) -> Anew<'a>
    ensures { read.IsRead (read.old_number (chars text.entry.now) (chars rest.entry.now)) result }
{
    match past_old_number(text) {
        Some(rest) => Anew {
            form: Form::OldNumber,
            rest,
        },
        None => kept(rest),
    }
}

/// The quote that a literal begins with.
fn first_of(text: &str) -> char
    ensures { result ≡ read.first_of (chars text.now) }
{
    match first_char(text) {
        Some((quote, _)) => quote,
        None => '"',
    }
}

#[tactic(auto, unfolding(crate::specs::Forms::old_string))]
fn old_string<'a>(text: &'a str, rest: &'a str) -> Anew<'a>
    requires { (taken : List ℕ) × (text.now ≡ taken ++ rest.now) }
    ensures { read.IsRead (read.old_string (chars text.entry.now) (chars rest.entry.now)) result }
{
    let quote = first_of(text);
    if is_old_string(quote, before(text, rest)) {
        Anew {
            form: Form::OldString(quote),
            rest,
        }
    } else {
        kept(rest)
    }
}

fn kept(rest: &str) -> Anew<'_>
    ensures { read.IsRead (read.kept (chars rest.now)) result }
{
    Anew {
        form: Form::Kept,
        rest,
    }
}

#[tactic(auto, unfolding(crate::specs::Forms::only))]
fn only(is_so: bool, form: Form, rest: &str) -> Anew<'_>
    ensures { read.IsRead (read.only is_so form (chars rest.now)) result }
{
    Anew {
        form: if is_so { form } else { Form::Kept },
        rest,
    }
}

/// A comment to the end of its line, or what there is.
#[tactic(auto, unfolding(crate::specs::Forms::comment))]
fn comment(is_so: bool, rest: &str) -> Anew<'_>
    ensures { read.IsRead (read.comment is_so (chars rest.now)) result }
{
    if is_so {
        Anew {
            form: Form::Comment,
            rest: past(Class::Line, rest),
        }
    } else {
        kept(rest)
    }
}

/// `?.`, where no digit stands behind it: section 12.8.
#[tactic(auto, unfolding(crate::specs::Forms::question_dot))]
fn question_dot(rest: &str) -> Anew<'_>
    ensures { read.IsRead (read.question_dot (chars rest.now)) result }
{
    if begins_with('.', rest) && !is_ahead(Class::Digit, behind(rest)) {
        Anew {
            form: Form::QuestionDot,
            rest: behind(rest),
        }
    } else {
        kept(rest)
    }
}

/// `!--`
#[tactic(auto, unfolding(crate::specs::Forms::opens_comment))]
fn opens_comment(rest: &str) -> bool
    ensures { result ≡ read.opens_comment (chars rest.now) }
{
    begins_with('!', rest)
        && begins_with('-', behind(rest))
        && begins_with('-', behind(behind(rest)))
}

/// What an error token is read anew as.
#[tactic(auto, unfolding(crate::specs::Forms::fault_anew))]
fn fault_anew<'a>(kind: &SyntaxError, text: &'a str, rest: &'a str) -> Anew<'a>
    requires { (taken : List ℕ) × (text.now ≡ taken ++ rest.now) }
    ensures { read.IsRead
        (read.fault_anew kind.now (chars text.entry.now) (chars rest.entry.now)) result }
{
    match kind {
        SyntaxError::UnexpectedChar => if begins_with('`', text) {
            template(true, text, rest)
        } else if begins_with('\\', text) {
            name(text, rest)
        } else {
            kept(rest)
        },
        SyntaxError::InvalidNumber => old_number(text, rest),
        SyntaxError::InvalidStrEscape => old_string(text, rest),
        _ => kept(rest),
    }
}

#[tactic(auto, unfolding(crate::specs::Forms::is_script))]
fn is_script(goal: Goal) -> bool
    ensures { result ≡ read.is_script goal }
{
    matches!(goal, Goal::Script)
}

/// What a token is read anew as that a text begins with. `rest`: the text behind it.
#[tactic(auto, unfolding(crate::specs::Forms::anew))]
pub fn read_anew<'a>(
    goal: Goal,
    nest: &Nest,
    begins_line: bool,
    token: &Token,
    text: &'a str,
    rest: &'a str,
) -> Anew<'a>
    requires { (taken : List ℕ) × (text.now ≡ taken ++ rest.now) }
    ensures { read.IsRead
        (read.anew goal nest.now begins_line token.now (chars text.entry.now)
        (chars rest.entry.now)) result }
{
    match token {
        Token::BinOp(BinOpToken::Div) | Token::AssignOp(AssignOp::DivAssign) => {
            if nest.begins_regex() {
                regex(text, rest)
            } else {
                kept(rest)
            }
        }
        Token::RBrace => if nest.ends_substitution() {
            template(false, text, rest)
        } else {
            kept(rest)
        },
        Token::QuestionMark => question_dot(rest),
        Token::Dot => only(nest.is_behind_new(), Form::NewDot, rest),
        Token::Hash => only(nest.begins_private_operand(), Form::HashIn, rest),
        Token::BinOp(BinOpToken::Lt) => comment(is_script(goal) && opens_comment(rest), rest),
        Token::MinusMinus => comment(
            is_script(goal) && begins_line && begins_with('>', rest),
            rest,
        ),
        Token::Word(_) => if begins_with('\\', rest) {
            name(text, rest)
        } else {
            kept(rest)
        },
        Token::Error(error) => fault_anew(&error.kind, text, rest),
        _ => kept(rest),
    }
}

/// The same of a piece for whose token there was no memory.
#[tactic(auto, unfolding(crate::specs::Forms::lost_anew))]
pub fn lost_anew<'a>(state: State, text: &'a str, rest: &'a str) -> Anew<'a>
    ensures { read.IsRead
        (read.lost_anew state (chars text.entry.now) (chars rest.entry.now)) result }
{
    if matches!(state, State::Name) && begins_with('\\', rest) {
        name(text, rest)
    } else {
        kept(rest)
    }
}

/// Whether it is a comment.
#[tactic(auto, unfolding(crate::specs::Forms::is_comment))]
pub fn is_comment(form: Form) -> bool
    ensures { result ≡ read.is_comment form }
{
    matches!(form, Form::Comment)
}

/// Whether a token stays what it is.
#[tactic(auto, unfolding(crate::specs::Forms::is_kept))]
pub fn is_kept(form: Form) -> bool
    ensures { result ≡ read.is_kept form }
{
    matches!(form, Form::Kept)
}

/// The error token of a fault.
#[tactic(auto, unfolding(swc_ecma_parser_lexer::specs::Make::fault))]
pub fn fault(kind: SyntaxError, span: Span) -> Token
    ensures { result ≡ make.fault kind span }
{
    Token::Error(Error { span, kind })
}

fn escaped_word(alloc: Global, text: &str) -> Result<Token, AllocError>
    ensures { IfOk result
        (λ found. found ≡ token.Word (word.Escaped (name_said escape.Text (chars text.now)))) }
{
    let name = Atom::from_string(name_said(alloc, text)?)?;
    Ok(Token::Word(Word::Escaped(name)))
}

/// A regular expression, by the text behind its first `/` and the bytes of its body.
fn regex_token(alloc: Global, body: usize, inner: &str) -> Result<Token, AllocError>
    requires { read.FitsRegex body inner.now }
    ensures { IfOk result (λ found. found ≡ read.regex_token body inner.now) }
{
    Ok(Token::Regex {
        exp: Atom::new(alloc, &inner[..body])?,
        flags: Atom::new(alloc, behind(&inner[body..]))?,
    })
}

/// The text before the mark that ends a part of a template.
#[tactic(auto, unfolding(crate::specs::Forms::before_mark))]
fn before_mark(is_last: bool, inner: &str) -> &str
    requires { read.FitsPart is_last inner.now }
    ensures { result.now ≡ read.before_mark is_last inner.now }
{
    let mark = if is_last { 1 } else { 2 };
    &inner[..inner.len() - mark]
}

/// The token that a text is, read anew as a form; none where the form has none of its own.
#[tactic(auto, unfolding(crate::specs::Forms::token_anew))]
pub fn token_anew(
    alloc: Global,
    form: Form,
    text: &str,
    span: Span,
) -> Result<Option<Token>, AllocError>
    requires { read.Fits form text.now }
    ensures token { IfOk result (λ token. token ≡ read.token_anew form text.now span) }
    ensures lost { OnErr result (IsSome (read.token_anew form text.now span)) }
{
    match form {
        Form::Kept | Form::Comment => Ok(None),
        Form::Regex(body) => Ok(Some(regex_token(alloc, body, behind(text))?)),
        Form::OpenRegex => Ok(Some(fault(SyntaxError::UnterminatedRegxp, span))),
        Form::Part { is_first, is_last } => Ok(Some(part(
            alloc,
            is_first,
            is_last,
            before_mark(is_last, behind(text)),
        )?)),
        Form::OpenPart => Ok(Some(fault(SyntaxError::UnterminatedTpl, span))),
        Form::QuestionDot => Ok(Some(Token::QuestionDot)),
        Form::NewDot => Ok(Some(Token::NewDot)),
        Form::HashIn => Ok(Some(Token::HashIn)),
        Form::EscapedName => Ok(Some(escaped_word(alloc, text)?)),
        Form::OldNumber => Ok(Some(Token::Num {
            raw: Atom::new(alloc, text)?,
        })),
        Form::OldString(quote) => Ok(Some(Token::Str {
            value: Atom::from_string(old_value_of(alloc, quote, text)?)?,
            raw: Atom::new(alloc, text)?,
        })),
    }
}

/// The kind of the token that a part of a template is.
#[tactic(auto, unfolding(crate::specs::Forms::part_kind))]
fn part_kind(is_first: bool, is_last: bool) -> TokenKind
    ensures { result ≡ read.part_kind is_first is_last }
{
    if is_first {
        if is_last {
            TokenKind::Template
        } else {
            TokenKind::TemplateHead
        }
    } else if is_last {
        TokenKind::TemplateTail
    } else {
        TokenKind::TemplateMiddle
    }
}

/// The kind of the token that a form is, if it is one of its own.
#[tactic(auto, unfolding(crate::specs::Forms::kind_anew))]
pub fn kind_anew(form: Form) -> TokenKind
    ensures { result ≡ read.kind_anew form }
{
    match form {
        Form::Kept | Form::Comment | Form::OpenRegex | Form::OpenPart => TokenKind::Error,
        Form::Regex(_) => TokenKind::Regex,
        Form::Part { is_first, is_last } => part_kind(is_first, is_last),
        Form::QuestionDot => TokenKind::QuestionDot,
        Form::NewDot => TokenKind::NewDot,
        Form::HashIn => TokenKind::HashIn,
        Form::EscapedName => TokenKind::Escaped,
        Form::OldNumber => TokenKind::Num,
        Form::OldString(_) => TokenKind::Str,
    }
}
