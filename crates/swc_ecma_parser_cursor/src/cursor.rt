//! What the rules read from.

ghost use Rattle.std.specs.Prelude.{◌≡◌, ◌≢◌, [], Ok, Err, IfErr, IfOk, IsOk, is_some, option_map, count_by};
ghost use Rattle.std.specs.Str.{bytes_eq};
ghost use Rattle.swc_ecma_parser_error.specs.Kind as kinds;
ghost use Rattle.swc_ecma_parser_error.specs.Kind.{fault_of, kind_of, IsOutOfMemory};
ghost use Rattle.swc_ecma_parser_grammar.specs.Follows as follows;
ghost use Rattle.swc_ecma_parser_grammar.specs.Looks as looks;
ghost use Rattle.swc_ecma_parser_grammar.specs.Names as names;
ghost use Rattle.swc_ecma_parser_grammar.specs.scaffold.Using as resources;
ghost use Rattle.swc_ecma_parser_grammar.specs.language.Begins as begins;
ghost use Rattle.swc_ecma_parser_grammar.specs.language.Declarations as declarations;
ghost use Rattle.swc_ecma_parser_model.specs.Tree.{Tree};
ghost use Rattle.swc_ecma_parser_model.specs.declared.leaves.Ident.{Ident};
ghost use Rattle.swc_ecma_parser_input.specs.Place as place;
ghost use Rattle.swc_ecma_parser_reader.specs.AsyncArrows as async_arrows;
ghost use Rattle.swc_ecma_parser_reader.specs.Expressions as exprs;
ghost use Rattle.swc_ecma_parser_reader.specs.Methods as methods;
ghost use Rattle.swc_ecma_parser_reader.specs.Reader as rules;
ghost use Rattle.swc_ecma_parser_reader.specs.Recovery as recovery;
ghost use Rattle.swc_ecma_parser_reader.specs.State as reader;
ghost use Rattle.swc_ecma_parser_reader.specs.State.{Gives, GivesAs};
ghost use Rattle.swc_ecma_parser_cursor.specs.Around.{left_body};
ghost use Rattle.swc_ecma_parser_cursor.specs.Labels.{LeavesLabel};
ghost use Rattle.swc_ecma_parser_cursor.specs.Literals.{literal_tree, quasi_tree, regex_tree};
ghost use Rattle.swc_ecma_parser_cursor.specs.Wanted.{wanted_kind};

use crate::around::Around;
use crate::literal::Literal;
use crate::wanted::Wanted;
use std::alloc::Global;
use swc_ecma_parser_common::{Atom, Span};
use swc_ecma_parser_error::{Error, PResult, SyntaxError};
use swc_ecma_parser_grammar::Position;
use swc_ecma_parser_input::Context;
use swc_ecma_parser_model::{Ident, Regex, TplElement};
use swc_ecma_parser_token::TokenKind;

/// What the rules read from: a state, without the type of its source. Each step that reads gives what the reader gives,
/// unless memory ran out.
pub trait Cursor {
    ghost use Rattle.swc_ecma_parser_reader.specs.State.{State};

    /// The state that it stands for.
    ghost seen: { Self → State };

    /// The kind of the current token.
    fn kind(&self) -> TokenKind
        ensures { result ≡ looks.kind_at (seen self.now).at };

    /// Whether a token of this kind stands here.
    fn sees(&self, kind: TokenKind) -> bool
        ensures { result ≡ looks.sees kind (seen self.now).at };

    /// Whether a line break stands before the current token.
    fn had_line_break(&self) -> bool
        ensures { result ≡ looks.breaks_at (seen self.now).at };

    /// The span of the current token, or of the one read last.
    fn span(&self) -> Span
        ensures { result ≡ looks.span_at (seen self.now).at };

    /// The span of the token read last.
    fn last_span(&self) -> Span
        ensures { result ≡ (seen self.now).at.last };

    /// What stands around.
    fn flags(&self) -> Context
        ensures { result ≡ (seen self.now).code.flags };

    /// Whether attributes of imports are read.
    fn import_attributes(&self) -> bool
        ensures { result ≡ (seen self.now).code.setting.import_attributes };

    /// Whether a name may be exported from elsewhere as a default.
    fn export_default_from(&self) -> bool
        ensures { result ≡ (seen self.now).code.setting.export_default_from };

    /// Whether fields with a getter and a setter are read.
    fn auto_accessors(&self) -> bool
        ensures { result ≡ (seen self.now).code.setting.auto_accessors };

    /// Whether decorators are read.
    fn decorators(&self) -> bool
        ensures { result ≡ (seen self.now).code.setting.decorators };

    /// Whether decorators may stand before `export`.
    fn decorators_before_export(&self) -> bool
        ensures { result ≡ (seen self.now).code.setting.decorators_before_export };

    /// Whether `using` declares.
    fn explicit_resource_management(&self) -> bool
        ensures { result ≡ (seen self.now).code.setting.explicit_resource_management };

    /// Whether `return` may stand outside of functions.
    fn allow_return_outside_function(&self) -> bool
        ensures { result ≡ (seen self.now).code.setting.allow_return_outside_function };

    /// Whether a label of this text stands around.
    fn has_label(&self, text: &str) -> bool
        ensures { result ≡ names.is_one_of (seen self.now).scope.labels text.now };

    /// How many labels of this text stand around.
    fn count_labels(&self, text: &str) -> usize
        ensures { result
            ≡ count_by (λ label. bytes_eq text.now label) (seen self.now).scope.labels };

    /// Goes below one more label.
    fn push_label(&mut self, label: Atom) -> PResult<()>
        ensures { Gives (Ok (tt, reader.below label (seen self.old))) result (seen self.new) };

    /// Leaves the innermost label.
    fn pop_label(&mut self)
        ensures { LeavesLabel (seen self.old) (seen self.new) };

    /// Enters the body of a function: no label stands around it, and nothing in it makes a program a module. What stood around
    /// is handed out.
    fn enter_body(&mut self, alloc: Global) -> Around
        ensures state { seen self.new ≡ reader.unlabelled (seen self.old) }
        ensures labels { result.labels.items ≡ (seen self.old).scope.labels }
        ensures found { result.found_module_item ≡ (seen self.old).notes.found_module_item };

    /// Leaves it: this stands around again.
    fn leave_body(&mut self, around: Around)
        ensures { seen self.new ≡ left_body around (seen self.old) };

    /// A copy of what stands around, so that it can stand around again behind what is dropped.
    fn copy_around(&mut self) -> PResult<Around>
        ensures labels { IfOk result
            (λ around. around.labels.items ≡ (seen self.old).scope.labels) }
        ensures found { IfOk result
            (λ around. around.found_module_item ≡ (seen self.old).notes.found_module_item) }
        ensures state { IfOk result (λ around. seen self.new ≡ seen self.old) }
        ensures err { IfErr result IsOutOfMemory };

    /// Whether a word stands here that can be a name, clean or not.
    fn name_at(&self) -> bool
        ensures { result ≡ names.name_at (seen self.now).code.flags (seen self.now).at };

    /// Whether the current token goes on with a member or call expression, or is a postfix operator.
    fn continues_left_side(&self) -> bool
        ensures { result ≡ follows.continues_left_side (seen self.now).at };

    /// Whether a word that is not reserved stands here.
    fn identifier_at(&self) -> bool
        ensures { result ≡ names.identifier_at (seen self.now).code.flags (seen self.now).at };

    /// Whether `await` stands here as an operator: an operand can begin behind it.
    fn awaits(&self) -> bool
        ensures { result ≡ begins.awaits (seen self.now).code.flags (seen self.now).at };

    /// Whether a word stands here, reserved or not.
    fn is_word_here(&self) -> bool
        ensures { result ≡ exprs.is_word_at (seen self.now).at };

    /// Whether a word that is no keyword stands here and has this text.
    fn word_at(&self, text: &'static str) -> bool
        ensures { result ≡ follows.word_at text.now (seen self.now).at };

    /// The same of the token behind the current one.
    fn next_word_at(&self, text: &'static str) -> bool
        ensures { result ≡ follows.word_at text.now (place.after (seen self.now).at) };

    /// Whether a line break stands before the token behind the current one.
    fn next_had_line_break(&self) -> bool
        ensures { result ≡ looks.breaks_at (place.after (seen self.now).at) };

    /// Whether a token of this kind stands behind the current one.
    fn next_sees(&self, kind: TokenKind) -> bool
        ensures { result ≡ looks.sees kind (place.after (seen self.now).at) };

    /// Whether `async function` stands here on one line.
    fn is_async_function(&self) -> bool
        ensures { result ≡ follows.is_async_function (seen self.now).at };

    /// Whether this word stands here and is no key, but what a method begins with.
    fn modifies(&self, text: &'static str) -> bool
        ensures { result ≡ methods.modifies text.now (seen self.now).at };

    /// Whether `async` stands here, and on its line what it makes async.
    fn begins_async_method(&self) -> bool
        ensures { result ≡ methods.begins_async_method (seen self.now).at };

    /// Whether `async` and its arguments stand here on one line.
    fn begins_async_call(&self) -> bool
        ensures { result ≡ exprs.begins_async_call (seen self.now).at };

    /// Whether `async` and a name stand here on one line.
    fn begins_async_arrow(&self) -> bool
        ensures { result
            ≡ async_arrows.begins_async_arrow (seen self.now).code.flags (seen self.now).at };

    /// The look-ahead of an expression statement.
    fn may_begin_expression_statement(&self, at: Position) -> bool
        ensures { result ≡ follows.may_begin_expression_statement at (seen self.now).at };

    /// Whether `let` stands here and begins a declaration.
    fn is_let_declaration(&self) -> bool
        ensures { result ≡ follows.is_let_declaration (seen self.now).at };

    /// Whether `using` stands here and begins a declaration.
    fn is_using_declaration(&self) -> bool
        ensures { result
            ≡ declarations.is_using_declaration (seen self.now).code (seen self.now).at };

    /// Whether `using` stands here and may begin a declaration in the head of a loop.
    fn may_declare_using(&self) -> bool
        ensures { result ≡ resources.may_declare_using (seen self.now).code (seen self.now).at };

    /// Takes the current token.
    fn skip(&mut self) -> PResult<()>
        ensures { Gives (reader.skip (seen self.old)) result (seen self.new) };

    /// Takes the current token, whatever it is, but one that memory ran out for.
    fn pass(&mut self) -> PResult<()>
        ensures { Gives (recovery.any_token (seen self.old)) result (seen self.new) };

    /// Records a fault; an error token that stands here is read and recorded first.
    fn fault(&mut self, kind: SyntaxError, span: Span) -> PResult<()>
        ensures { Gives (reader.fault (reader.fault_at span (kind_of kind)) (seen self.old))
            result (seen self.new) };

    /// Adds a fault that counts in module code alone.
    fn module_fault(&mut self, kind: SyntaxError, span: Span) -> PResult<()>
        ensures { Gives
            (Ok (tt, reader.module_fault (reader.fault_at span (kind_of kind)) (seen self.old)))
            result (seen self.new) };

    /// Notes that what was read makes a program a module.
    fn note_module_item(&mut self)
        ensures { seen self.new ≡ reader.module_found (seen self.old) };

    /// Refuses what stands here in the place of a part.
    fn wanted(&mut self, wanted: Wanted) -> Error
        ensures tree { kind_of result.kind ≢ kinds.OutOfMemory
            → reader.wanted {A = Tree} (wanted_kind wanted) (seen self.old) ≡ Err (fault_of result, seen self.new) }
        ensures unit { kind_of result.kind ≢ kinds.OutOfMemory
            → reader.wanted {A = Unit {0}} (wanted_kind wanted) (seen self.old) ≡ Err (fault_of result, seen self.new) };

    /// Refuses what was read at a place; an error token that stands here is read and recorded.
    fn reject(&mut self, kind: SyntaxError, span: Span) -> Error
        ensures tree { kind_of result.kind ≢ kinds.OutOfMemory
            → reader.reject {A = Tree} (reader.fault_at span (kind_of kind)) (seen self.old) ≡ Err (fault_of result, seen self.new) }
        ensures unit { kind_of result.kind ≢ kinds.OutOfMemory
            → reader.reject {A = Unit {0}} (reader.fault_at span (kind_of kind)) (seen self.old) ≡ Err (fault_of result, seen self.new) };

    /// Refuses what stands here with this kind; an error token that stands here is read and recorded.
    fn refuse_as(&mut self, kind: SyntaxError) -> Error
        ensures { kind_of result.kind ≢ kinds.OutOfMemory
            → reader.refuse {A = Tree} (kind_of kind) (seen self.old) ≡ Err (fault_of result, seen self.new) };

    /// Refuses what stands here in the place of a fixed token; an error token that stands here is read and recorded.
    fn refuse(&mut self, wanted: Wanted) -> Error
        ensures { kind_of result.kind ≢ kinds.OutOfMemory
            → reader.refuse {A = Tree} (wanted_kind wanted) (seen self.old) ≡ Err (fault_of result, seen self.new) };

    /// Refuses what would stand deeper than the limit, and marks it.
    fn too_deep(&mut self) -> Error
        ensures { kind_of result.kind ≢ kinds.OutOfMemory
            → reader.too_deep {A = Tree} (seen self.old) ≡ Err (fault_of result, seen self.new) };

    /// Marks that memory ran out.
    fn out_of_memory(&mut self) -> Error
        ensures { IsOutOfMemory result };

    /// Whether something stood too deep, or memory ran out.
    fn is_marked(&self) -> bool
        ensures { result ≡ is_some (seen self.now).scope.mark };

    /// Reads a token that must stand here, which is written so.
    fn expect(&mut self, kind: TokenKind, spelling: &'static str) -> PResult<()>
        ensures { Gives (reader.expect kind (seen self.old)) result (seen self.new) };

    /// Reads a word that must stand here and is no keyword.
    fn expect_word(&mut self, text: &'static str) -> PResult<()>
        ensures { Gives (reader.expect_word text.now (seen self.old)) result (seen self.new) };

    /// The end of a statement.
    fn end(&mut self, wanted: Wanted) -> PResult<()>
        ensures { Gives (reader.end (wanted_kind wanted) (seen self.old)) result (seen self.new) };

    /// A name that is bound: `await` where it is no clean one is refused in a static block, else it is a fault.
    fn name(&mut self, wanted: Wanted) -> PResult<Ident>
        ensures { Gives (reader.name (wanted_kind wanted) (seen self.old)) result (seen self.new) };

    /// A name that refers to something: `await` is none in async code either.
    fn reference(&mut self, wanted: Wanted) -> PResult<Ident>
        ensures { Gives (reader.reference (wanted_kind wanted) (seen self.old))
            result (seen self.new) };

    /// A word, reserved or not.
    fn any_word(&mut self) -> PResult<Ident>
        ensures { Gives (exprs.any_word (seen self.old)) result (seen self.new) };

    /// A literal, if one stands here.
    fn literal(&mut self) -> PResult<Option<Literal>>
        ensures { GivesAs (option_map literal_tree) (exprs.literal (seen self.old))
            result (seen self.new) };

    /// Takes a regular expression.
    fn regex(&mut self) -> PResult<Regex>
        ensures { GivesAs regex_tree (exprs.regex (seen self.old)) result (seen self.new) };

    /// Takes a text of a template. An escape in it that is none is refused, unless a tag stands before the template.
    fn template_text(&mut self, tagged: bool) -> PResult<TplElement>
        ensures { GivesAs quasi_tree (exprs.template_text tagged (seen self.old)) result
            (seen self.new) };

    /// The text of a shebang, if one stands here.
    fn shebang(&mut self) -> PResult<Option<Atom>>
        ensures gives { Gives (rules.shebang (seen self.old)) result (seen self.new) }
        ensures outright { (seen self.old).at.left ≡ [] → IsOk result };

    /// Sets the context to one of the same goal, script or module.
    fn set_flags(&mut self, flags: Context)
        requires { flags.module ≡ (seen self.old).code.flags.module }
        ensures { seen self.new
            ≡ reader.coded (record (seen self.old).code { flags = flags }) (seen self.old) };
}
