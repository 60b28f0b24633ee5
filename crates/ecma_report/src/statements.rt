//! What a parser answers that is asked for one statement, as lines.

ghost use Rattle.std.specs.Prelude.{◌≡◌, [], IfOk, Result, string_bytes};
ghost use Rattle.swc_ecma_parser_ast.specs.View.{view_stmt};
ghost use Rattle.swc_ecma_parser_ast.specs.declared.stmt.Stmt.{Stmt};
ghost use Rattle.swc_ecma_parser_error.specs.declared.error.Error.{Error};
ghost use Rattle.swc_ecma_parser_model.specs.Held.{Held};
ghost use Rattle.swc_ecma_parser_reader.specs.State.{State};
ghost use Rattle.swc_ecma_parser_reader.specs.Entry.{unmarked, SoundStatement};
ghost use Rattle.ecma_report.specs.Lines.{statement_lines, seen};
ghost use Rattle.swc_ecma_parser_exactness.specs.Completes.{CompletesStatement};

use crate::lines::lines_of_statement;
use std::alloc::{AllocError, Global};
use swc_ecma_parser::Parser;
use swc_ecma_parser::ast::Stmt;
use swc_ecma_parser::error::PResult;
use swc_ecma_parser::input::Tokens;

/// Reads one statement, which may be a declaration or not.
fn statement<I: Tokens>(parser: &mut Parser<I>, may_declare: bool, top_level: bool) -> PResult<Stmt>
    ensures sound { IfOk result
        (λ x. SoundStatement parser.old.limit may_declare top_level (unmarked parser.old.state)
        (view_stmt x) parser.new.state) }
    ensures complete { CompletesStatement view_stmt parser.old.limit may_declare top_level
        (unmarked parser.old.state) result parser.new.state }
{
    if may_declare {
        return parser.parse_stmt_list_item(top_level);
    }
    parser.parse_stmt(top_level)
}

/// Lets go of an answer.
fn discard(answer: PResult<Stmt>) {
    if let Ok(statement) = answer {
        statement.discard();
    }
}

/// Has a parser read one statement, which may be a declaration or not, and takes the faults that it recorded. The lines are those
/// of an answer and of the faults of the state `t` behind it, in which the parser is left but for them. A tree among them is
/// sound, and each tree within the limit that the language has for tokens from there on is that answer.
pub fn show_statement<I: Tokens>(
    alloc: Global,
    parser: &mut Parser<I>,
    may_declare: bool,
    top_level: bool,
) -> Result<String, AllocError>
    ensures { IfOk result
        (λ shown. (answer : Result (Stmt Held) Error) × (t : State)
        × (parser.new.state ≡ record t { faults = [] })
        × (string_bytes shown ≡ statement_lines (seen view_stmt answer) t.faults)
        × IfOk answer (λ x. SoundStatement parser.old.limit may_declare top_level (unmarked parser.old.state) (view_stmt x) t)
        × CompletesStatement view_stmt parser.old.limit may_declare top_level (unmarked parser.old.state) answer t) }
{
    let answer = statement(parser, may_declare, top_level);
    let faults = parser.take_errors();
    let shown = lines_of_statement(alloc, &answer, faults.as_slice());
    discard(answer);
    shown
}
