//! What the steps of rules are made of.

ghost use Rattle.std.specs.Prelude.{◌≡◌, ◌≢◌, Err, IfOk, IfErr, option_map};
ghost use Rattle.swc_ecma_parser_error.specs.Kind as kinds;
ghost use Rattle.swc_ecma_parser_error.specs.Kind.{fault_of, kind_of, IsOutOfMemory};
ghost use Rattle.swc_ecma_parser_input.specs.Place as place;
ghost use Rattle.swc_ecma_parser_model.specs.Tree.{Tree};
ghost use Rattle.swc_ecma_parser_model.specs.declared.leaves.Ident.{Ident};
ghost use Rattle.swc_ecma_parser_reader.specs.Expressions as exprs;
ghost use Rattle.swc_ecma_parser_reader.specs.State as reader;
ghost use Rattle.swc_ecma_parser_reader.specs.State.{Gives};
ghost use Rattle.swc_ecma_parser_reader.specs.declared.mark.Mark.TheVariants as mark;
ghost use Rattle.swc_ecma_parser_state.specs.FirstError as first;
ghost use Rattle.swc_ecma_parser_cursor.specs.Literals.{literal_tree, quasi_tree};
ghost use Rattle.swc_ecma_parser_state.specs.Taken as taken;
ghost use Rattle.swc_ecma_parser_cursor.specs.Wanted.{wanted_kind};
ghost use Rattle.swc_ecma_parser_token.specs.Text.{word_text};

use crate::call::no_memory;
use crate::state::{Call, Origin};
use swc_ecma_parser_common::{Atom, Span};
use swc_ecma_parser_cursor::{Cursor, Literal, Wanted, missing};
use swc_ecma_parser_error::{Error, PResult, SyntaxError};
use swc_ecma_parser_input::Tokens;
use swc_ecma_parser_model::{BigInt, Bool, Null, Number, Str, TplElement};
use swc_ecma_parser_reader::Mark;
use swc_ecma_parser_token::{Token, TokenAndSpan, Word};

impl<O: Origin, I: Tokens> Call<O, I> {
    /// Marks that memory ran out, and says so at the end of what was read last.
    pub(crate) fn out_of_memory(&mut self) -> Error
        ensures err { IsOutOfMemory result }
        ensures state { self.new ≡ reader.marked mark.OutOfMemory self.old }
    {
        let last = self.last_span();
        self.mark_memory();
        no_memory(last)
    }

    /// Takes the current token. Where the token behind the next one finds no memory, that is answered.
    #[inline(always)]
    pub(crate) fn take(&mut self) -> PResult<Option<TokenAndSpan>>
        ensures token { IfOk result (λ t. t ≡ place.first self.old.at.left) }
        ensures state { IfOk result (λ t. self.new ≡ reader.moved self.old) }
        ensures err { IfErr result IsOutOfMemory }
    {
        let taken = self.buffer.bump();
        if self.buffer.is_out_of_memory() {
            self.mark = Some(Mark::OutOfMemory);
            return Err(no_memory(self.buffer.last_span()));
        }
        Ok(taken)
    }

    /// Takes an error token that stands here. One for want of memory is answered.
    pub(crate) fn take_error(&mut self) -> PResult<Option<Error>>
        ensures error { IfOk result (λ e. e ≡ first.first_error self.old.at.left) }
        ensures state { IfOk result (λ e. self.new ≡ first.without e self.old) }
        ensures kind { IfOk result (λ o. first.Harmless o) }
        ensures err { IfErr result IsOutOfMemory }
    {
        let is_error = matches!(
            self.buffer.cur(),
            Some(TokenAndSpan {
                token: Token::Error(_),
                ..
            })
        );
        if !is_error {
            return Ok(None);
        }
        let Some(taken) = self.take()? else {
            return Ok(None);
        };
        let TokenAndSpan { token, .. } = taken;
        let Token::Error(error) = token else {
            return Ok(None);
        };
        if matches!(error.kind, SyntaxError::OutOfMemory) {
            self.mark_memory();
            return Err(error);
        }
        Ok(Some(error))
    }

    /// Adds a fault to those recorded.
    pub(crate) fn record(&mut self, error: Error) -> PResult<()>
        ensures ok { IfOk result (λ u. self.new ≡ reader.noted (fault_of error) self.old) }
        ensures err { IfErr result IsOutOfMemory }
    {
        match self.buffer.add_error(error) {
            Ok(()) => Ok(()),
            Err(_) => Err(self.out_of_memory()),
        }
    }
}

impl<O: Origin, I: Tokens> Call<O, I> {
    /// The fault of what is wanted and does not stand here, or want of memory for its text.
    pub(crate) fn missing(&mut self, wanted: Wanted) -> PResult<SyntaxError>
        ensures ok { IfOk result (λ kind. kind_of kind ≡ wanted_kind wanted) }
        ensures state { IfOk result (λ kind. self.new ≡ self.old) }
        ensures err { IfErr result IsOutOfMemory }
    {
        let alloc = *self.labels.allocator();
        let found = self.buffer.cur().map(|t| &t.token);
        match missing(alloc, wanted, found) {
            Ok(kind) => Ok(kind),
            Err(_) => Err(self.out_of_memory()),
        }
    }

    /// The fault of a part that must stand where the list has ended.
    pub fn eof(&self) -> Error
        ensures { fault_of result ≡ reader.fault_at (reader.end_of self.now.at.last) kinds.Eof }
    {
        let last = self.last_span();
        Error {
            span: Span {
                lo: last.hi,
                hi: last.hi,
            },
            kind: SyntaxError::Eof,
        }
    }

    /// Refuses what stands here in the place of a part. At the end the kind is `Eof`, and an error token is read and its
    /// fault answered.
    #[tactic(auto, using(crate::proofs::Primitives::wanted_error, crate::proofs::Primitives::wanted_end, crate::proofs::Primitives::wanted_plain))]
    pub(crate) fn wanted(&mut self, wanted: Wanted) -> Error
        ensures tree { kind_of result.kind ≢ kinds.OutOfMemory
            → reader.wanted {A = Tree} (wanted_kind wanted) self.old ≡ Err (fault_of result, self.new) }
        ensures unit { kind_of result.kind ≢ kinds.OutOfMemory
            → reader.wanted {A = Unit {0}} (wanted_kind wanted) self.old ≡ Err (fault_of result, self.new) }
        ensures ident { kind_of result.kind ≢ kinds.OutOfMemory
            → reader.wanted {A = Ident} (wanted_kind wanted) self.old ≡ Err (fault_of result, self.new) }
    {
        if self.is_at_end() {
            return self.eof();
        }
        match self.take_error() {
            Err(error) => error,
            Ok(Some(error)) => error,
            Ok(None) => match self.missing(wanted) {
                Err(error) => error,
                Ok(kind) => Error {
                    span: self.span(),
                    kind,
                },
            },
        }
    }

    /// Records the fault of an error token that was taken, as any other.
    pub(crate) fn fault_again(&mut self, error: Error) -> PResult<()>
        ensures { Gives (reader.fault (fault_of error) self.old) result self.new }
    {
        let Error { span, kind } = error;
        self.fault(kind, span)
    }

    /// Refuses what stands here with this kind. An error token is read and recorded.
    #[tactic(auto, using(crate::proofs::Primitives::refuse_plain, crate::proofs::Primitives::refuse_recorded, crate::proofs::Primitives::refuse_failed))]
    pub(crate) fn refuse_as(&mut self, kind: SyntaxError) -> Error
        ensures tree { kind_of result.kind ≢ kinds.OutOfMemory
            → reader.refuse {A = Tree} (kind_of kind) self.old ≡ Err (fault_of result, self.new) }
        ensures unit { kind_of result.kind ≢ kinds.OutOfMemory
            → reader.refuse {A = Unit {0}} (kind_of kind) self.old ≡ Err (fault_of result, self.new) }
    {
        let span = self.span();
        match self.take_error() {
            Err(error) => error,
            Ok(None) => Error { span, kind },
            Ok(Some(found)) => match self.fault_again(found) {
                Err(error) => error,
                Ok(()) => Error { span, kind },
            },
        }
    }

    /// The parser's own refusal of what stands here. An error token is read and recorded.
    pub(crate) fn refuse(&mut self, wanted: Wanted) -> Error
        ensures tree { kind_of result.kind ≢ kinds.OutOfMemory
            → reader.refuse {A = Tree} (wanted_kind wanted) self.old ≡ Err (fault_of result, self.new) }
        ensures unit { kind_of result.kind ≢ kinds.OutOfMemory
            → reader.refuse {A = Unit {0}} (wanted_kind wanted) self.old ≡ Err (fault_of result, self.new) }
    {
        match self.missing(wanted) {
            Err(error) => error,
            Ok(kind) => self.refuse_as(kind),
        }
    }
}

impl<O: Origin, I: Tokens> Call<O, I> {
    /// The text of a word.
    #[inline(always)]
    pub(crate) fn word_atom(&mut self, word: Word) -> PResult<Atom>
        ensures ok { IfOk result (λ a. a ≡ word_text word) }
        ensures state { IfOk result (λ a. self.new ≡ self.old) }
        ensures err { IfErr result IsOutOfMemory }
    {
        if let Word::Ident(text) | Word::Escaped(text) = word {
            return Ok(text);
        }
        let alloc = *self.labels.allocator();
        match Atom::new(alloc, word.as_str()) {
            Ok(text) => Ok(text),
            Err(_) => Err(self.out_of_memory()),
        }
    }

    pub(crate) fn is_literal_here(&self) -> bool
        ensures { result ≡ taken.literal_first self.now.at.left }
    {
        match self.buffer.cur() {
            None => false,
            Some(t) => is_literal(&t.token),
        }
    }

    pub(crate) fn is_regex_here(&self) -> bool
        ensures { result ≡ taken.regex_first self.now.at.left }
    {
        match self.buffer.cur() {
            Some(
                TokenAndSpan {
                    token: Token::Regex { .. },
                    ..
                },
            ) => true,
            _ => false,
        }
    }

    pub(crate) fn is_text_here(&self) -> bool
        ensures { result ≡ taken.text_first self.now.at.left }
    {
        match self.buffer.cur() {
            None => false,
            Some(t) => is_text(&t.token),
        }
    }

    pub(crate) fn is_shebang_here(&self) -> bool
        ensures { result ≡ taken.shebang_first self.now.at.left }
    {
        match self.buffer.cur() {
            Some(
                TokenAndSpan {
                    token: Token::Shebang(_),
                    ..
                },
            ) => true,
            _ => false,
        }
    }
}

/// Whether a token is a literal.
fn is_literal(token: &Token) -> bool
    ensures { result ≡ taken.is_literal token.now }
{
    matches!(
        token,
        Token::Str { .. }
            | Token::Num { .. }
            | Token::BigInt { .. }
            | Token::Word(Word::Null)
            | Token::Word(Word::True)
            | Token::Word(Word::False)
    )
}

/// Whether a token is a text of a template.
fn is_text(token: &Token) -> bool
    ensures { result ≡ taken.is_text token.now }
{
    matches!(
        token,
        Token::Template { .. }
            | Token::TemplateHead { .. }
            | Token::TemplateMiddle { .. }
            | Token::TemplateTail { .. }
    )
}

/// The text of a template that a token is.
pub(crate) fn text_of(token: Token, span: Span) -> Option<TplElement>
    ensures { option_map quasi_tree result ≡ exprs.text_of span token }
{
    let (tail, raw, cooked) = match token {
        Token::Template { raw, cooked } | Token::TemplateTail { raw, cooked } => (
            true, raw, cooked,
        ),
        Token::TemplateHead { raw, cooked } | Token::TemplateMiddle { raw, cooked } => (
            false, raw, cooked,
        ),
        _ => return None,
    };
    Some(TplElement {
        span,
        tail,
        cooked,
        raw,
    })
}

/// The literal that a token is.
pub(crate) fn literal_of(token: Token, span: Span) -> Option<Literal>
    ensures { option_map literal_tree result ≡ exprs.literal_of span token }
{
    match token {
        Token::Str { value, raw } => Some(Literal::Str(Str { span, value, raw })),
        Token::Num { raw } => Some(Literal::Num(Number { span, raw })),
        Token::BigInt { raw } => Some(Literal::BigInt(BigInt { span, raw })),
        Token::Word(Word::Null) => Some(Literal::Null(Null { span })),
        Token::Word(Word::True) => Some(Literal::Bool(Bool { span, value: true })),
        Token::Word(Word::False) => Some(Literal::Bool(Bool { span, value: false })),
        _ => None,
    }
}
