//! What is wrong, in a sentence for each kind of fault, and where ECMA-262 (edition 2025) says so.

ghost use Rattle.std.specs.Prelude.{◌≡◌};
ghost use Rattle.swc_ecma_parser_error.specs.Kind.{kind_of};
ghost use Rattle.ecma_sentences.specs.Sentence.{sentence_of};

use swc_ecma_parser_error::SyntaxError;

/// The sentence of a kind, from a list of all.
macro_rules! sentence_among {
    ($of:expr, { $($kind:ident: $sentence:literal,)* }) => {
        match $of {
            $(SyntaxError::$kind { .. } => $sentence,)*
        }
    };
}

/// The sentence of a kind.
macro_rules! sentence {
    ($of:expr) => {
        sentence_among!($of, {
            TS1105: "`break` outside of a loop or `switch`; move it into one, or name a label around it (ECMA-262, 14.9.1)",
            TS1107: "no loop with this label around this `continue` (ECMA-262, 8.3.3)",
            TS1115: "`continue` outside of a loop; move it into one (ECMA-262, 14.8.1)",
            TS1116: "no label of this name around this `break` (ECMA-262, 8.3.2)",
            ReturnNotAllowed: "`return` outside of a function; move it into the body of one (ECMA-262, 14.10)",
            DuplicateLabel: "this label is inside of another of the same name; rename one of the two (ECMA-262, 8.3.1)",
            LabelledFunctionInStrict: "a function cannot have a label in strict code; remove the label (ECMA-262, 14.13.1)",
            LabelledGeneratorOrAsync: "a generator cannot have a label; remove the label (ECMA-262, 14.13)",
            DuplicateConstructor: "this class already has a constructor; remove one of the two (ECMA-262, 15.7.1)",
            IllegalLanguageModeDirective: "'use strict' in a function whose parameters are not all plain names; put it around the function (ECMA-262, 15.2.1)",
            TooManyVarInForInHead: "more than one variable is declared before `in` or `of`; declare only one (ECMA-262, 14.7.5)",
            VarInitializerInForInHead: "a variable declared before `in` or `of` cannot have an initializer; remove it (ECMA-262, 14.7.5)",
            ExportExpectFrom: "this does not name a variable of this module; write `from` and the module that it comes from (ECMA-262, 16.2.3.1)",
            ExportBindingIsString: "a string does not name a variable of this module; write `from` and the module that it comes from (ECMA-262, 16.2.3.1)",
            TS1005: "something is missing before this: a `;` or a line break, or the `try`, `catch` or `finally` that belongs to it (ECMA-262, 12.10 and 14.15)",
            TS1009: "this list of variables ends too early; declare one more, or remove its last comma (ECMA-262, 14.3)",
            TS1172: "this class already extends another; remove the second `extends` (ECMA-262, 15.7)",
            TS1184: "this modifier is not allowed here; remove it (ECMA-262, 15.7)",
            TS1089: "a static method named `constructor` is not read, though it is valid; choose another name (ECMA-262, 15.7.1)",
            InvalidLeadingDecorator: "decorators are not allowed here: only classes and their members take them (proposal Decorators)",
            TopLevelAwaitInScript: "`await` at the top level of a script; move it into an async function, or make this a module (ECMA-262, 16.1)",
            ImportMetaInScript: "`import.meta` in a script; only modules have it (ECMA-262, 13.3.1.1)",
            AwaitInFunction: "`await` in a function that is not async; write `async` before the function (ECMA-262, 15.8)",
            AwaitParamInAsync: "`await` in a parameter; use it in the body of the function (ECMA-262, 15.8.1)",
            InvalidIdentInAsync: "`await` is not a valid name in async code, static blocks and modules; choose another (ECMA-262, 13.1.1)",
            DeclNotAllowed: "a declaration cannot be used in the place of a statement; put it in braces (ECMA-262, 14)",
            UsingDeclNotEnabled: "`using` is not enabled; enable it, or declare with `const` (proposal Explicit Resource Management)",
            InvalidNameInUsingDecl: "`using` cannot declare a pattern; declare plain names (proposal Explicit Resource Management)",
            InitRequiredForUsingDecl: "a `using` declaration must have an initializer; give it one (proposal Explicit Resource Management)",
            UsingDeclNotAllowedForForInLoop: "`using` is allowed before `of`, but not before `in`; declare with `const` (proposal Explicit Resource Management)",
            ConstDeclarationsRequireInitialization: "a `const` declaration must have an initializer; give it one, or declare with `let` (ECMA-262, 14.3.1.1)",
            GeneratorConstructor: "a constructor cannot be a generator; remove the `*`, or choose another name (ECMA-262, 15.7.1)",
            ConstructorAccessor: "a getter or setter cannot be named `constructor`; choose another name (ECMA-262, 15.7.1)",
            PrivateConstructor: "`#constructor` is not a valid private name; choose another (ECMA-262, 15.7.1)",
            GetterParam: "a getter must have no parameters (ECMA-262, 15.4)",
            SetterParam: "a setter must have exactly one parameter (ECMA-262, 15.4)",
            RestPatInSetter: "the parameter of a setter cannot be a rest parameter; remove the `...` (ECMA-262, 15.4)",
            TrailingCommaInsideImport: "a comma before the `)` of `import`; remove it, or enable import attributes (ECMA-262, 13.3.10)",
            WithInStrict: "`with` is not allowed in strict code, which includes every module; name the object of each member (ECMA-262, 14.11.1)",
            InvalidIdentInStrict: "this word is reserved in strict code, which includes every module; choose another name (ECMA-262, 13.1.1)",
            Eof: "the text ends in the middle of a statement; finish it, or look for a bracket that is not closed (ECMA-262, 14)",
            Expected: "another token is expected here (ECMA-262, Annex A)",
            Unexpected: "unexpected token (ECMA-262, Annex A)",
            ExpectedIdent: "expected a name that is not reserved (ECMA-262, 13.1)",
            ExpectedSemiForExprStmt: "the statement before this has not ended; write a `;` or a line break between them (ECMA-262, 12.10)",
            LineBreakInThrow: "the line ends after `throw`; write what is thrown on the same line (ECMA-262, 14.14)",
            MultipleDefault: "this `switch` already has a `default`; remove one of the two (ECMA-262, 14.12)",
            PatVarWithoutInit: "a pattern is declared without an initializer; write `=` and a value after it (ECMA-262, 14.3)",
            AwaitForStmt: "`for await` without `of`; remove `await`, or loop with `of` (ECMA-262, 14.7.5)",
            ImportExportInScript: "imports and exports are only allowed at the top level of a module (ECMA-262, 16.2)",
            ExportNotAllowed: "`export` twice, with decorators between; remove one of the two (ECMA-262, 16.2.3)",
            DecoratorOnExport: "decorators before `export`; move them after it, or enable them there (proposal Decorators)",
            TS8038: "decorators before `export` and after it; keep those on one side (proposal Decorators)",
            ReservedWordInImport: "a reserved word cannot be imported under its own name; give it another with `as` (ECMA-262, 16.2.2)",
            ImportBindingIsString: "a string is imported without a name; give it one with `as` (ECMA-262, 16.2.2)",
            PropertyNamedConstructor: "a field cannot be named `constructor`; choose another name (ECMA-262, 15.7.1)",
            AsyncConstructor: "a constructor cannot be async; remove `async`, or choose another name (ECMA-262, 15.7.1)",
            InvalidPat: "this cannot be assigned to or bound; expected a name or a pattern (ECMA-262, 13.15.1 and 15.3.1)",
            NotSimpleAssign: "this cannot be assigned to, incremented or decremented; a name or a member can (ECMA-262, 13.4.1 and 13.15.1)",
            AssignProperty: "`name = value` in an object that is not a pattern; write `name: value` (ECMA-262, 13.2.5.1)",
            NullishCoalescingWithLogicalOp: "`??` cannot be mixed with `||` or `&&`; put one of the two in parentheses (ECMA-262, 13.13)",
            UnaryInExp: "a unary operator to the left of `**`; put it and its operand in parentheses (ECMA-262, 13.6)",
            LineBreakBeforeArrow: "a line break before `=>`; write it on the line of the parameters (ECMA-262, 15.3)",
            InvalidSuper: "expected a call `(..)` or a member, `.a` or `[a]`, after `super` (ECMA-262, 13.3.7)",
            WithLabel: "the condition of this `if` is invalid here (ECMA-262, 14.6)",
            OutOfMemory: "memory ran out",
            TooDeep: "this is nested deeper than the limit, which --limit sets to at most 1000 levels",
            UnexpectedChar: "no token begins with this character; the plain language has no templates and no escapes in names (ECMA-262, 12)",
            UnterminatedStrLit: "this string does not end on its line; write its closing quote (ECMA-262, 12.9.4)",
            UnterminatedBlockComment: "this comment does not end; write `*/` after it (ECMA-262, 12.4)",
            InvalidNumber: "this number is invalid; the plain language has no old octal forms such as 017, but 0o17 (ECMA-262, 12.9.3)",
            InvalidStrEscape: "an escape in this string is invalid: `\\x` takes two hexadecimal digits, `\\u` four or `{..}` up to 10FFFF; the plain language has no old octal escapes (ECMA-262, 12.9.4)",
            UnterminatedRegxp: "this regular expression does not end on its line; write `/` after it (ECMA-262, 12.9.5)",
            UnterminatedTpl: "this template does not end; write a backtick after it (ECMA-262, 12.9.6)",
        })
    };
}

/// A sentence for a person: what is wrong and what would be right, with the section of ECMA-262 or the proposal in parentheses.
pub fn sentence(kind: &SyntaxError) -> &'static str
    ensures { result.now ≡ sentence_of (kind_of kind.now) }
{
    sentence!(kind)
}
