//! The place among what is open, token by token.

ghost use Rattle.std.specs.Prelude.{◌≡◌, ◌≤◌, length};
ghost use Rattle.swc_ecma_parser_nesting.specs.Nesting as read;

use crate::ahead::Ahead;
use crate::stack::{LIMIT, Open, Stack};
use swc_ecma_parser_token::TokenKind;

/// What may come next, and what is open around it.
#[derive(Drop)]
pub struct Nest {
    ahead: Ahead,
    stack: Stack,
}

#[tactic(auto, unfolding(crate::specs::Nesting::is_operand))]
fn is_operand(ahead: Ahead) -> bool
    ensures { result ≡ read.is_operand ahead }
{
    matches!(
        ahead,
        Ahead::Operand | Ahead::New | Ahead::Arrow | Ahead::AsyncOperand
    )
}

#[tactic(auto, unfolding(crate::specs::Nesting::is_ended))]
fn is_ended(ahead: Ahead) -> bool
    ensures { result ≡ read.is_ended ahead }
{
    matches!(
        ahead,
        Ahead::Ended | Ahead::Async | Ahead::AsyncOperand | Ahead::BehindKey | Ahead::Let
    )
}

#[tactic(auto, unfolding(crate::specs::Nesting::is_name))]
fn is_name(ahead: Ahead) -> bool
    ensures { result ≡ read.is_name ahead }
{
    matches!(ahead, Ahead::Name)
}

#[tactic(auto, unfolding(crate::specs::Nesting::is_key))]
fn is_key(ahead: Ahead) -> bool
    ensures { result ≡ read.is_key ahead }
{
    matches!(ahead, Ahead::Key | Ahead::BehindKey)
}

#[tactic(auto, unfolding(crate::specs::Nesting::is_class_body))]
fn is_class_body(entry: Open) -> bool
    ensures { result ≡ read.is_class_body entry }
{
    matches!(entry, Open::ClassBody(_))
}

#[tactic(auto, unfolding(crate::specs::Nesting::is_member_name))]
fn is_member_name(ahead: Ahead, top: Open) -> bool
    ensures { result ≡ read.is_member_name ahead top }
{
    is_class_body(top) && !is_operand(ahead)
}

/// What may come behind `of`.
#[tactic(auto, unfolding(crate::specs::Nesting::behind_of))]
fn behind_of(ahead: Ahead, top: Open) -> Ahead
    ensures { result ≡ read.behind_of ahead top }
{
    match (ahead, top) {
        (Ahead::Ended, Open::Head) => Ahead::Operand,
        _ => Ahead::Ended,
    }
}

#[tactic(auto, unfolding(crate::specs::Nesting::behind_async))]
fn behind_async(ahead: Ahead) -> Ahead
    ensures { result ≡ read.behind_async ahead }
{
    if is_operand(ahead) {
        Ahead::AsyncOperand
    } else {
        Ahead::Async
    }
}

#[tactic(auto, unfolding(crate::specs::Nesting::behind_name))]
fn behind_name(ahead: Ahead, top: Open, name: &str) -> Ahead
    ensures { result ≡ read.behind_name ahead top name.now }
{
    if name == "async" {
        behind_async(ahead)
    } else if name == "of" {
        behind_of(ahead, top)
    } else {
        Ahead::Ended
    }
}

#[tactic(auto, unfolding(crate::specs::Nesting::behind_await))]
fn behind_await(ahead: Ahead) -> Ahead
    ensures { result ≡ read.behind_await ahead }
{
    if matches!(ahead, Ahead::Head) {
        Ahead::Head
    } else {
        Ahead::Operand
    }
}

/// What may come behind a word that is neither a key nor a name whatever it says.
#[tactic(auto, unfolding(crate::specs::Nesting::behind_word))]
fn behind_word(ahead: Ahead, top: Open, kind: TokenKind, name: &str) -> Ahead
    ensures { result ≡ read.behind_word ahead top kind name.now }
{
    match kind {
        TokenKind::Ident => behind_name(ahead, top, name),
        TokenKind::Function => Ahead::Name,
        TokenKind::If | TokenKind::While | TokenKind::For | TokenKind::With => Ahead::Head,
        TokenKind::Await => behind_await(ahead),
        TokenKind::Else
        | TokenKind::Do
        | TokenKind::Try
        | TokenKind::Finally
        | TokenKind::Catch
        | TokenKind::Break
        | TokenKind::Continue
        | TokenKind::Debugger => Ahead::Statement,
        TokenKind::New => Ahead::New,
        TokenKind::Let => Ahead::Let,
        TokenKind::Export | TokenKind::Default => Ahead::Exported,
        TokenKind::Class
        | TokenKind::This
        | TokenKind::Super
        | TokenKind::Switch
        | TokenKind::Null
        | TokenKind::True
        | TokenKind::False
        | TokenKind::Escaped => Ahead::Ended,
        _ => Ahead::Operand,
    }
}

/// What may come behind a word in the body of a class, where no operand must come.
#[tactic(auto, unfolding(crate::specs::Nesting::in_class))]
fn in_class(ahead: Ahead, kind: TokenKind) -> Ahead
    ensures { result ≡ read.in_class ahead kind }
{
    match (ahead, kind) {
        (Ahead::Ended, TokenKind::In) | (Ahead::Ended, TokenKind::InstanceOf) => Ahead::Operand,
        _ => Ahead::BehindKey,
    }
}

#[tactic(auto, unfolding(crate::specs::Nesting::parenthesis))]
fn parenthesis(ahead: Ahead) -> Open
    ensures { result ≡ read.parenthesis ahead }
{
    if matches!(ahead, Ahead::Head) {
        Open::Head
    } else {
        Open::Paren
    }
}

#[tactic(auto, unfolding(crate::specs::Nesting::behind_parenthesis))]
fn behind_parenthesis(entry: Open) -> Ahead
    ensures { result ≡ read.behind_parenthesis entry }
{
    if matches!(entry, Open::Head) {
        Ahead::Statement
    } else {
        Ahead::Ended
    }
}

#[tactic(auto, unfolding(crate::specs::Nesting::behind_brace))]
fn behind_brace(entry: Open) -> Ahead
    ensures { result ≡ read.behind_brace entry }
{
    match entry {
        Open::Object | Open::FunctionBody(true) | Open::ClassBody(true) => Ahead::Ended,
        Open::Method => Ahead::Key,
        _ => Ahead::Statement,
    }
}

#[tactic(auto, unfolding(crate::specs::Nesting::behind_semicolon))]
fn behind_semicolon(entry: Open) -> Ahead
    ensures { result ≡ read.behind_semicolon entry }
{
    match entry {
        Open::ClassBody(_) => Ahead::Key,
        Open::Head => Ahead::Operand,
        _ => Ahead::Statement,
    }
}

#[tactic(auto, unfolding(crate::specs::Nesting::behind_comma))]
fn behind_comma(entry: Open) -> Ahead
    ensures { result ≡ read.behind_comma entry }
{
    if matches!(entry, Open::Object) {
        Ahead::Key
    } else {
        Ahead::Operand
    }
}

#[tactic(auto, unfolding(crate::specs::Nesting::behind_update))]
fn behind_update(ahead: Ahead) -> Ahead
    ensures { result ≡ read.behind_update ahead }
{
    if is_ended(ahead) {
        Ahead::Ended
    } else {
        Ahead::Operand
    }
}

#[tactic(auto, unfolding(crate::specs::Nesting::behind_star))]
fn behind_star(ahead: Ahead) -> Ahead
    ensures { result ≡ read.behind_star ahead }
{
    match ahead {
        Ahead::Name => Ahead::Name,
        Ahead::Key | Ahead::BehindKey => Ahead::Key,
        _ => Ahead::Operand,
    }
}

#[tactic(auto, unfolding(crate::specs::Nesting::behind_literal))]
fn behind_literal(ahead: Ahead) -> Ahead
    ensures { result ≡ read.behind_literal ahead }
{
    if matches!(ahead, Ahead::Key) {
        Ahead::BehindKey
    } else {
        Ahead::Ended
    }
}

/// What may come behind a mark that opens and closes nothing, or behind a literal.
#[tactic(auto, unfolding(crate::specs::Nesting::behind_mark))]
fn behind_mark(ahead: Ahead, top: Open, kind: TokenKind) -> Ahead
    ensures { result ≡ read.behind_mark ahead top kind }
{
    match kind {
        TokenKind::Comma => behind_comma(top),
        TokenKind::Dot
        | TokenKind::QuestionDot
        | TokenKind::NewDot
        | TokenKind::Hash
        | TokenKind::HashIn => Ahead::Name,
        TokenKind::Arrow => Ahead::Arrow,
        TokenKind::PlusPlus | TokenKind::MinusMinus => behind_update(ahead),
        TokenKind::Mul => behind_star(ahead),
        TokenKind::Str | TokenKind::Num | TokenKind::BigInt | TokenKind::Regex => {
            behind_literal(ahead)
        }
        TokenKind::Template => Ahead::Ended,
        TokenKind::Shebang | TokenKind::Error | TokenKind::End => ahead,
        _ => Ahead::Operand,
    }
}

/// A word that is no keyword.
#[tactic(auto, unfolding(crate::specs::Nesting::is_plain_word))]
fn is_plain_word(kind: TokenKind) -> bool
    ensures { result ≡ read.is_plain_word kind }
{
    matches!(
        kind,
        TokenKind::Null | TokenKind::True | TokenKind::False | TokenKind::Ident | TokenKind::Escaped
    )
}

/// A keyword of statements.
#[tactic(auto, unfolding(crate::specs::Nesting::is_statement_keyword))]
fn is_statement_keyword(kind: TokenKind) -> bool
    ensures { result ≡ read.is_statement_keyword kind }
{
    matches!(
        kind,
        TokenKind::Break
            | TokenKind::Case
            | TokenKind::Catch
            | TokenKind::Continue
            | TokenKind::Debugger
            | TokenKind::Default
            | TokenKind::Do
            | TokenKind::Else
            | TokenKind::Finally
            | TokenKind::For
            | TokenKind::If
            | TokenKind::Return
            | TokenKind::Switch
            | TokenKind::Throw
            | TokenKind::Try
            | TokenKind::While
            | TokenKind::With
    )
}

/// A keyword of declarations.
#[tactic(auto, unfolding(crate::specs::Nesting::is_declaring_keyword))]
fn is_declaring_keyword(kind: TokenKind) -> bool
    ensures { result ≡ read.is_declaring_keyword kind }
{
    matches!(
        kind,
        TokenKind::Function
            | TokenKind::Var
            | TokenKind::Let
            | TokenKind::Const
            | TokenKind::Class
            | TokenKind::Extends
            | TokenKind::Export
            | TokenKind::Import
    )
}

/// A keyword of expressions.
#[tactic(auto, unfolding(crate::specs::Nesting::is_operand_keyword))]
fn is_operand_keyword(kind: TokenKind) -> bool
    ensures { result ≡ read.is_operand_keyword kind }
{
    matches!(
        kind,
        TokenKind::Await
            | TokenKind::New
            | TokenKind::This
            | TokenKind::Super
            | TokenKind::Yield
            | TokenKind::In
            | TokenKind::InstanceOf
            | TokenKind::TypeOf
            | TokenKind::Void
            | TokenKind::Delete
    )
}

#[tactic(auto, unfolding(crate::specs::Nesting::is_word))]
fn is_word(kind: TokenKind) -> bool
    ensures { result ≡ read.is_word kind }
{
    is_plain_word(kind)
        || is_operand_keyword(kind)
        || is_declaring_keyword(kind)
        || is_statement_keyword(kind)
}

impl Nest {
    /// The start of a text.
    pub fn new() -> Nest
        ensures { result ≡ read.outset }
    {
        Nest {
            ahead: Ahead::Statement,
            stack: Stack::new(),
        }
    }

    /// An equal one. It takes no memory.
    pub fn copy(&self) -> Nest
        ensures { result ≡ self.now }
    {
        Nest {
            ahead: self.ahead,
            stack: self.stack.copy(),
        }
    }

    /// Whether `/` begins a regular expression here.
    #[tactic(auto, unfolding(crate::specs::Nesting::begins_regex, crate::specs::Nesting::is_regex_place))]
    pub fn begins_regex(&self) -> bool
        ensures { result ≡ read.begins_regex self.now }
    {
        matches!(
            self.ahead,
            Ahead::Statement | Ahead::Operand | Ahead::New | Ahead::Arrow | Ahead::Exported
        )
    }

    /// Whether `#` begins the left operand of `in` here, and no name of a member.
    #[tactic(auto, unfolding(crate::specs::Nesting::begins_private_operand, crate::specs::Nesting::is_statement_place))]
    pub fn begins_private_operand(&self) -> bool
        ensures { result ≡ read.begins_private_operand self.now }
    {
        let is_statement_place = matches!(self.ahead, Ahead::Statement | Ahead::Exported);
        is_operand(self.ahead) || is_statement_place && !is_class_body(self.stack.top())
    }

    /// Whether `.` goes on with `new` here.
    #[tactic(auto, unfolding(crate::specs::Nesting::is_behind_new, crate::specs::Nesting::is_new))]
    pub fn is_behind_new(&self) -> bool
        ensures { result ≡ read.is_behind_new self.now }
    {
        matches!(self.ahead, Ahead::New)
    }

    /// Whether `}` goes on with a template here.
    #[tactic(auto, unfolding(crate::specs::Nesting::ends_substitution, crate::specs::Nesting::is_substitution))]
    pub fn ends_substitution(&self) -> bool
        ensures { result ≡ read.ends_substitution self.now }
    {
        matches!(self.stack.unquestioned(), Open::Substitution)
    }

    /// Whether more is open than `LIMIT`.
    #[tactic(auto, unfolding(crate::specs::Nesting::is_too_deep))]
    pub fn is_too_deep(&self) -> bool
        ensures { result ≡ read.is_too_deep self.now }
    {
        self.stack.len() > LIMIT
    }

    /// Takes back the innermost of what is open.
    pub fn take_back(&mut self)
        ensures { self.new ≡ read.taken_back self.old }
    {
        self.stack.pop();
    }

    /// Goes past a token, by its kind. `name`: what it says where it is a name.
    #[tactic(auto, unfolding(crate::specs::Nesting::pass))]
    pub fn pass(&mut self, kind: TokenKind, name: &str)
        requires { length self.old.stack ≤ 4096 }
        ensures passed { self.new ≡ read.pass self.old kind name.now }
        ensures room { length self.new.stack ≤ 4097 }
    {
        if is_word(kind) {
            self.word(kind, name);
        } else {
            self.mark(kind);
        }
    }

    #[tactic(auto, unfolding(crate::specs::Nesting::word))]
    fn word(&mut self, kind: TokenKind, name: &str)
        requires { length self.old.stack ≤ 4096 }
        ensures { self.new ≡ read.word self.old kind name.now }
    {
        let top = self.stack.top();
        if is_name(self.ahead) {
            self.ahead = Ahead::Ended;
        } else if is_member_name(self.ahead, top) {
            self.ahead = in_class(self.ahead, kind);
        } else if is_key(self.ahead) {
            self.ahead = Ahead::BehindKey;
        } else {
            let ahead = behind_word(self.ahead, top, kind, name);
            self.open_word(kind);
            self.ahead = ahead;
        }
    }

    /// Opens what a word opens.
    #[tactic(auto, unfolding(crate::specs::Nesting::with_word))]
    fn open_word(&mut self, kind: TokenKind)
        requires { length self.old.stack ≤ 4096 }
        ensures { self.new
            ≡ record self.old { stack = read.with_word self.old.ahead self.old.stack kind } }
    {
        match kind {
            TokenKind::Function => self.stack.push(Open::Function(is_operand(self.ahead))),
            TokenKind::Class => self.stack.push(Open::Class(is_operand(self.ahead))),
            _ => {}
        }
    }

    #[tactic(auto, unfolding(crate::specs::Nesting::mark))]
    fn mark(&mut self, kind: TokenKind)
        requires { length self.old.stack ≤ 4096 }
        ensures { self.new ≡ read.mark self.old kind }
    {
        match kind {
            TokenKind::LParen => self.begin(parenthesis(self.ahead)),
            TokenKind::LBracket => self.begin(Open::Bracket),
            TokenKind::QuestionMark => self.begin(Open::Question),
            TokenKind::TemplateHead => self.begin(Open::Substitution),
            TokenKind::LBrace => self.brace(),
            TokenKind::RParen => {
                let entry = self.end();
                self.ahead = behind_parenthesis(entry);
            }
            TokenKind::RBracket | TokenKind::TemplateTail => {
                self.end();
                self.ahead = Ahead::Ended;
            }
            TokenKind::RBrace => {
                let entry = self.end();
                self.ahead = behind_brace(entry);
            }
            TokenKind::Semi => {
                self.stack.drop_questions();
                self.ahead = behind_semicolon(self.stack.top());
            }
            TokenKind::TemplateMiddle => {
                self.stack.drop_questions();
                self.ahead = Ahead::Operand;
            }
            TokenKind::Colon => self.colon(),
            _ => self.ahead = behind_mark(self.ahead, self.stack.top(), kind),
        }
    }

    /// Opens something that an operand must come in.
    fn begin(&mut self, entry: Open)
        requires { length self.old.stack ≤ 4096 }
        ensures { self.new ≡ read.beginning entry self.old }
    {
        self.stack.push(entry);
        self.ahead = Ahead::Operand;
    }

    /// Closes the innermost bracket.
    fn end(&mut self) -> Open
        ensures entry { result ≡ read.innermost self.old }
        ensures left { self.new ≡ read.ended self.old }
    {
        self.stack.drop_questions();
        self.stack.pop()
    }

    #[tactic(auto, unfolding(crate::specs::Nesting::brace))]
    fn brace(&mut self)
        requires { length self.old.stack ≤ 4096 }
        ensures { self.new ≡ read.brace self.old.ahead self.old.stack }
    {
        match self.ahead {
            Ahead::Operand | Ahead::New | Ahead::Exported | Ahead::Head | Ahead::Let => {
                self.stack.push(Open::Object);
                self.ahead = Ahead::Key;
            }
            Ahead::Ended | Ahead::Async | Ahead::AsyncOperand | Ahead::BehindKey => self.body(),
            _ => {
                self.stack.push(Open::Block);
                self.ahead = Ahead::Statement;
            }
        }
    }

    /// `{` where it may begin a body.
    #[tactic(auto, unfolding(crate::specs::Nesting::body))]
    fn body(&mut self)
        requires { length self.old.stack ≤ 4096 }
        ensures { self.new ≡ read.body self.old.stack }
    {
        match self.stack.top() {
            Open::Class(is_operand) => {
                self.stack.pop();
                self.stack.push(Open::ClassBody(is_operand));
                self.ahead = Ahead::Key;
            }
            Open::Function(is_operand) => {
                self.stack.pop();
                self.stack.push(Open::FunctionBody(is_operand));
                self.ahead = Ahead::Statement;
            }
            Open::Object | Open::ClassBody(_) => {
                self.stack.push(Open::Method);
                self.ahead = Ahead::Statement;
            }
            _ => {
                self.stack.push(Open::Block);
                self.ahead = Ahead::Statement;
            }
        }
    }

    #[tactic(auto, unfolding(crate::specs::Nesting::colon))]
    fn colon(&mut self)
        ensures { self.new ≡ read.colon self.old.stack }
    {
        match self.stack.top() {
            Open::Question => {
                self.stack.pop();
                self.ahead = Ahead::Operand;
            }
            Open::Object => self.ahead = Ahead::Operand,
            _ => self.ahead = Ahead::Statement,
        }
    }
}
