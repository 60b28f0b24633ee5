ghost use Rattle.std.specs.Prelude.{◌≡◌, IfOk};

use crate::error::{Error, PResult};
use std::alloc::{AllocError, Global};
use swc_ecma_parser_common::{Atom, Boxed, Span};

/// Two texts of a fault: of what was wanted and of the token that was found in its place.
#[derive(Debug, PartialEq, Eq, Drop)]
pub struct Texts {
    pub wanted: Atom,
    pub found: Atom,
}

impl Texts {
    ghost use Rattle.std.specs.Prelude.{◌≡◌, IfOk};

    /// Copies of both texts, in a block of their own; it fails only where memory runs out.
    fn new(alloc: Global, wanted: &str, found: &str) -> Result<Boxed<Texts>, AllocError>
        ensures wanted { IfOk result (λ texts. texts.wanted ≡ wanted.now) }
        ensures found { IfOk result (λ texts. texts.found ≡ found.now) }
    {
        let texts = Texts {
            wanted: Atom::new(alloc, wanted)?,
            found: Atom::new(alloc, found)?,
        };
        Boxed::new(alloc, texts)
    }

    /// Equal texts, or no memory.
    pub fn try_clone(&self) -> Result<Texts, AllocError>
        ensures { IfOk result (λ texts. texts ≡ self.now) }
    {
        Ok(Texts {
            wanted: self.wanted.try_clone()?,
            found: self.found.try_clone()?,
        })
    }
}

/// A refusal with the place that it belongs to, and a note on it.
#[cycle(error)]
#[derive(Debug, PartialEq, Eq, Drop)]
pub struct Labelled {
    pub inner: Error,
    pub span: Span,
    pub note: Atom,
}

impl Labelled {
    ghost use Rattle.std.specs.Prelude.{◌≡◌, IfOk, IfErr};
    ghost use Rattle.swc_ecma_parser_error.specs.Kind.{fault_of, no_memory};

    /// An equal one, or a fault of kind `OutOfMemory` at 0.
    #[cycle(copy)]
    pub fn try_clone(&self) -> PResult<Labelled>
        ensures ok { IfOk result (λ labelled. labelled ≡ self.now) }
        ensures err { IfErr result (λ e. fault_of e ≡ no_memory) }
    {
        Ok(Labelled {
            inner: self.inner.try_clone()?,
            span: self.span,
            note: self.note.try_clone()?,
        })
    }
}

/// An equal text in a block of its own, or no memory.
fn copied(text: &Boxed<Atom>) -> Result<Boxed<Atom>, AllocError>
    ensures { IfOk result (λ copy. copy ≡ text.now) }
{
    Boxed::new(text.allocator(), text.get().try_clone()?)
}

/// Equal texts in a block of their own, or no memory.
fn copied_texts(texts: &Boxed<Texts>) -> Result<Boxed<Texts>, AllocError>
    ensures { IfOk result (λ copy. copy ≡ texts.now) }
{
    Boxed::new(texts.allocator(), texts.get().try_clone()?)
}

/// What is wrong. Kinds that the walk over a finished tree finds too stand first.
#[cycle(error)]
#[derive(Debug, PartialEq, Eq, Drop)]
pub enum SyntaxError {
    // Recorded while a tree is read; the walk over that tree finds the same.
    /// `break` outside loops, `switch` and labels.
    TS1105,
    /// `continue` to a label that is not around it.
    TS1107,
    /// `continue` outside loops.
    TS1115,
    /// `break` to a label that is not around it.
    TS1116,
    /// `return` outside functions.
    ReturnNotAllowed,
    /// A label inside an equal one, which it holds.
    DuplicateLabel(Boxed<Atom>),
    /// A labelled function in strict code.
    LabelledFunctionInStrict,
    /// A labelled generator.
    LabelledGeneratorOrAsync,
    /// A constructor after the first.
    DuplicateConstructor,
    /// `'use strict'` in a function whose parameters are not plain names.
    IllegalLanguageModeDirective,
    /// A declarator after the first in a `for` head before `in` or `of`.
    TooManyVarInForInHead,
    /// An initializer in a `for` head before `in` or `of`.
    VarInitializerInForInHead,
    /// An export that needs `from`; it holds the name.
    ExportExpectFrom(Boxed<Atom>),
    /// A string exported without `from`.
    ExportBindingIsString,
    // Recorded where something was read that no tree holds, or may have been.
    /// A missing `;`, or a stray `catch` or `finally`.
    TS1005,
    /// A comma with no declarator behind it.
    TS1009,
    /// A second `extends`.
    TS1172,
    /// A modifier that does not belong here.
    TS1184,
    /// `static` before a constructor; it holds the modifier.
    TS1089(Boxed<Atom>),
    /// Decorators before what takes none.
    InvalidLeadingDecorator,
    // Recorded, and left to the reader of the list.
    /// `await` at the top level of a script.
    TopLevelAwaitInScript,
    /// `import.meta` in a script.
    ImportMetaInScript,
    /// `await` in a function that is not async.
    AwaitInFunction,
    /// `await` in a parameter.
    AwaitParamInAsync,
    /// `await` as a name.
    InvalidIdentInAsync,
    /// A declaration in the place of a statement.
    DeclNotAllowed,
    /// `using` without its setting.
    UsingDeclNotEnabled,
    /// A pattern in a `using` declaration.
    InvalidNameInUsingDecl,
    /// A `using` declaration without initializer.
    InitRequiredForUsingDecl,
    /// `using` before `in`.
    UsingDeclNotAllowedForForInLoop,
    /// `const` without initializer.
    ConstDeclarationsRequireInitialization,
    /// A generator named `constructor`.
    GeneratorConstructor,
    /// An accessor named `constructor`.
    ConstructorAccessor,
    /// `#constructor`.
    PrivateConstructor,
    /// A getter with parameters.
    GetterParam,
    /// A setter without exactly one parameter.
    SetterParam,
    /// A setter whose parameter is a rest.
    RestPatInSetter,
    /// A comma before the `)` of `import(..)`.
    TrailingCommaInsideImport,
    /// `with` in module code.
    WithInStrict,
    /// A reserved word as a statement in module code; it holds the word.
    InvalidIdentInStrict(Boxed<Atom>),
    // Refused.
    /// The list of tokens has ended.
    Eof,
    /// Another token was wanted: its spelling, and the text of the one found.
    Expected(Boxed<Texts>),
    /// No rule takes this token: what stands here, and the text of the one found.
    Unexpected(Boxed<Texts>),
    /// A name was wanted.
    ExpectedIdent,
    /// An expression statement without its end; `expr` is its expression.
    ExpectedSemiForExprStmt { expr: Span },
    /// `throw` at the end of a line.
    LineBreakInThrow,
    /// A second `default`; `previous` is the first one.
    MultipleDefault { previous: Span },
    /// A pattern declared without initializer.
    PatVarWithoutInit,
    /// `for await` without `of`.
    AwaitForStmt,
    /// An import or export where none is read.
    ImportExportInScript,
    /// An export after decorators, where none may stand.
    ExportNotAllowed,
    /// Decorators before `export` without the setting.
    DecoratorOnExport,
    /// Decorators both before and after `export`.
    TS8038,
    /// A reserved word imported without `as`.
    ReservedWordInImport,
    /// A string imported without `as`; it holds the string.
    ImportBindingIsString(Boxed<Atom>),
    /// A field named `constructor`.
    PropertyNamedConstructor,
    /// An async method named `constructor`.
    AsyncConstructor,
    /// No pattern.
    InvalidPat,
    /// No target of an assignment.
    NotSimpleAssign,
    /// `name = value` in an object that is no pattern.
    AssignProperty,
    /// `??` beside `||` or `&&` without parentheses.
    NullishCoalescingWithLogicalOp,
    /// A unary operand left of `**`.
    UnaryInExp,
    /// A line break before `=>`.
    LineBreakBeforeArrow,
    /// `super` where it may not stand.
    InvalidSuper,
    /// A refusal with the place that it belongs to.
    WithLabel(Boxed<Labelled>),
    /// Memory ran out.
    OutOfMemory,
    /// Nested deeper than the limit.
    TooDeep,
    // Of a source text that spells no token.
    /// A character that begins no token.
    UnexpectedChar,
    /// A string literal that its line does not end.
    UnterminatedStrLit,
    /// A block comment that does not end.
    UnterminatedBlockComment,
    /// A number that is written wrong.
    InvalidNumber,
    /// A string literal with an escape that is written wrong.
    InvalidStrEscape,
    /// A regular expression that does not end on its line.
    UnterminatedRegxp,
    /// A template without its end.
    UnterminatedTpl,
}

/// The name of each kind of the list, as the code spells it.
macro_rules! name {
    ($of:expr, [$($kind:ident)*]) => {
        match $of {
            $(SyntaxError::$kind { .. } => stringify!($kind),)*
        }
    };
}

/// A copy: the kinds of the list hold nothing, and each other one has its arm.
macro_rules! copy {
    ($of:expr, [$($plain:ident)*], { $($pattern:pat => $copy:expr,)* }) => {
        match $of {
            $(SyntaxError::$plain => SyntaxError::$plain,)*
            $($pattern => $copy,)*
        }
    };
}

impl SyntaxError {
    ghost use Rattle.std.specs.Prelude.{◌≡◌, IfOk, IfErr};
    ghost use Rattle.swc_ecma_parser_error.specs.Kind.{fault_of, kind_of, name_of, no_memory};
    ghost use Rattle.swc_ecma_parser_error.specs.Kind as kinds;

    /// Another token was wanted: its spelling, and the text of the one found. It fails only where memory runs out.
    pub fn expected(alloc: Global, wanted: &str, found: &str) -> Result<SyntaxError, AllocError>
        ensures { IfOk result (λ k. kind_of k ≡ kinds.Expected) }
    {
        Ok(SyntaxError::Expected(Texts::new(alloc, wanted, found)?))
    }

    /// No rule takes the token found: what may stand here, and its text. It fails only where memory runs out.
    pub fn unexpected(alloc: Global, wanted: &str, found: &str) -> Result<SyntaxError, AllocError>
        ensures { IfOk result (λ k. kind_of k ≡ kinds.Unexpected) }
    {
        Ok(SyntaxError::Unexpected(Texts::new(alloc, wanted, found)?))
    }

    /// The name of the kind, as the code spells it.
    pub fn name(&self) -> &'static str
        ensures { result.now ≡ name_of (kind_of self.now) }
    {
        name!(self, [
            TS1105 TS1107 TS1115 TS1116 ReturnNotAllowed DuplicateLabel LabelledFunctionInStrict
            LabelledGeneratorOrAsync DuplicateConstructor IllegalLanguageModeDirective
            TooManyVarInForInHead VarInitializerInForInHead ExportExpectFrom
            ExportBindingIsString TS1005 TS1009 TS1172 TS1184 TS1089 InvalidLeadingDecorator
            TopLevelAwaitInScript ImportMetaInScript AwaitInFunction AwaitParamInAsync
            InvalidIdentInAsync DeclNotAllowed UsingDeclNotEnabled InvalidNameInUsingDecl
            InitRequiredForUsingDecl UsingDeclNotAllowedForForInLoop
            ConstDeclarationsRequireInitialization GeneratorConstructor ConstructorAccessor
            PrivateConstructor GetterParam SetterParam RestPatInSetter TrailingCommaInsideImport
            WithInStrict InvalidIdentInStrict Eof Expected Unexpected ExpectedIdent
            ExpectedSemiForExprStmt LineBreakInThrow MultipleDefault PatVarWithoutInit
            AwaitForStmt ImportExportInScript ExportNotAllowed DecoratorOnExport TS8038
            ReservedWordInImport ImportBindingIsString PropertyNamedConstructor AsyncConstructor
            InvalidPat NotSimpleAssign AssignProperty NullishCoalescingWithLogicalOp UnaryInExp
            LineBreakBeforeArrow InvalidSuper WithLabel OutOfMemory TooDeep UnexpectedChar
            UnterminatedStrLit UnterminatedBlockComment InvalidNumber InvalidStrEscape
            UnterminatedRegxp UnterminatedTpl
        ])
    }

    /// An equal kind, or a fault of kind `OutOfMemory` at 0.
    #[cycle(copy)]
    pub fn try_clone(&self) -> PResult<SyntaxError>
        ensures ok { IfOk result (λ k. k ≡ self.now) }
        ensures err { IfErr result (λ e. fault_of e ≡ no_memory) }
    {
        let copy = copy!(self, [
            TS1105 TS1107 TS1115 TS1116 ReturnNotAllowed LabelledFunctionInStrict
            LabelledGeneratorOrAsync DuplicateConstructor IllegalLanguageModeDirective
            TooManyVarInForInHead VarInitializerInForInHead ExportBindingIsString TS1005 TS1009
            TS1172 TS1184 InvalidLeadingDecorator TopLevelAwaitInScript ImportMetaInScript
            AwaitInFunction AwaitParamInAsync InvalidIdentInAsync DeclNotAllowed
            UsingDeclNotEnabled InvalidNameInUsingDecl InitRequiredForUsingDecl
            UsingDeclNotAllowedForForInLoop ConstDeclarationsRequireInitialization
            GeneratorConstructor ConstructorAccessor PrivateConstructor GetterParam SetterParam
            RestPatInSetter TrailingCommaInsideImport WithInStrict Eof ExpectedIdent
            LineBreakInThrow PatVarWithoutInit AwaitForStmt ImportExportInScript ExportNotAllowed
            DecoratorOnExport TS8038 ReservedWordInImport PropertyNamedConstructor
            AsyncConstructor InvalidPat NotSimpleAssign AssignProperty
            NullishCoalescingWithLogicalOp UnaryInExp LineBreakBeforeArrow InvalidSuper
            OutOfMemory TooDeep UnexpectedChar UnterminatedStrLit UnterminatedBlockComment
            InvalidNumber InvalidStrEscape UnterminatedRegxp UnterminatedTpl
        ], {
            SyntaxError::DuplicateLabel(text) => SyntaxError::DuplicateLabel(copied(text)?),
            SyntaxError::ExportExpectFrom(text) => SyntaxError::ExportExpectFrom(copied(text)?),
            SyntaxError::TS1089(text) => SyntaxError::TS1089(copied(text)?),
            SyntaxError::InvalidIdentInStrict(text) => SyntaxError::InvalidIdentInStrict(copied(text)?),
            SyntaxError::Expected(texts) => SyntaxError::Expected(copied_texts(texts)?),
            SyntaxError::Unexpected(texts) => SyntaxError::Unexpected(copied_texts(texts)?),
            SyntaxError::ExpectedSemiForExprStmt { expr } => SyntaxError::ExpectedSemiForExprStmt {
                expr: *expr,
            },
            SyntaxError::MultipleDefault { previous } => SyntaxError::MultipleDefault {
                previous: *previous,
            },
            SyntaxError::ImportBindingIsString(text) => SyntaxError::ImportBindingIsString(copied(text)?),
            SyntaxError::WithLabel(labelled) => SyntaxError::WithLabel(
                Boxed::new(labelled.allocator(), labelled.get().try_clone()?)?,
            ),
        });
        Ok(copy)
    }
}
