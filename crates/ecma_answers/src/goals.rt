//! A text, read as what is asked for.

ghost use Rattle.std.specs.Prelude.{◌≡◌, ◌<◌, ◌^◌, false, true, IfOk, length};
ghost use Rattle.swc_ecma_parser_error.specs.Kind.{kind_of};
ghost use Rattle.swc_ecma_parser_exactness.specs.Decides.{Lasts};
ghost use Rattle.swc_ecma_parser_grammar.specs.language.Programs as programs;
ghost use Rattle.ecma_answers.specs.declared.parsing.Tree.TheVariants as tree;
ghost use Rattle.ecma_answers.specs.Languages.{seen, source_of};
ghost use Rattle.ecma_answers.specs.Outcomes as outcomes;
ghost use Rattle.ecma_answers.specs.Spelled.{Decides, IsChosen, IsEither, IsProgram, IsReadAs, IsTurned, IsWholeProgram, module_source, script_source, without_await, wrapped};

use crate::choice::{chosen, is_clean, is_clean_module};
use crate::options::{Goal, Language, Options};
use crate::parsing::{Reading, Tree};
use crate::source::{AnyLexer, lexer_of};
use std::alloc::{AllocError, Global};
use swc_ecma_parser::ast::{Module, Program, Script};
use swc_ecma_parser::error::{Error, PResult, SyntaxError};
use swc_ecma_parser::headline::{read_module, read_program, read_script};
use swc_ecma_parser::input::{Context, Tokens};
use swc_ecma_parser_whole_lexer::Goal as CodeGoal;

/// Whether a kind of fault says that memory ran out.
fn is_out_of_memory(kind: &SyntaxError) -> bool
    ensures { result ≡ outcomes.is_out_of_memory (kind_of kind.now) }
{
    matches!(kind, SyntaxError::OutOfMemory)
}

/// What was read as a script.
fn of_script(read: (PResult<Script>, Vec<Error>)) -> Reading
    ensures tree { result.tree ≡ wrapped tree.Script read.0 }
    ensures faults { result.faults.items ≡ read.1.items }
{
    let (tree, faults) = read;
    match tree {
        Ok(tree) => Reading {
            tree: Ok(Tree::Script(tree)),
            faults,
        },
        Err(error) => Reading {
            tree: Err(error),
            faults,
        },
    }
}

/// What was read as a module.
fn of_module(read: (PResult<Module>, Vec<Error>)) -> Reading
    ensures tree { result.tree ≡ wrapped tree.Module read.0 }
    ensures faults { result.faults.items ≡ read.1.items }
{
    let (tree, faults) = read;
    match tree {
        Ok(tree) => Reading {
            tree: Ok(Tree::Module(tree)),
            faults,
        },
        Err(error) => Reading {
            tree: Err(error),
            faults,
        },
    }
}

/// What was read as a program.
fn of_program(read: (PResult<Program>, Vec<Error>)) -> Reading
    ensures tree { result.tree ≡ wrapped tree.Program read.0 }
    ensures faults { result.faults.items ≡ read.1.items }
{
    let (tree, faults) = read;
    match tree {
        Ok(tree) => Reading {
            tree: Ok(Tree::Program(tree)),
            faults,
        },
        Err(error) => Reading {
            tree: Err(error),
            faults,
        },
    }
}

/// Whether memory ran out on the way to an answer.
#[tactic(auto, using(crate::proofs::Deciding::other_kind))]
fn lacks_memory(answer: &PResult<Tree>) -> bool
    ensures { result ≡ false → Lasts answer.now }
{
    match answer {
        Ok(_) => false,
        Err(error) => is_out_of_memory(&error.kind),
    }
}

/// What was read, unless memory ran out on the way.
fn lasting(reading: Reading) -> Result<Reading, AllocError>
    ensures { IfOk result (λ it. (it ≡ reading) × Lasts it.tree) }
{
    if lacks_memory(&reading.tree) {
        return Err(AllocError);
    }
    Ok(reading)
}

/// Reads tokens as a script. It fails only where memory runs out, as each of these calls does.
fn as_script<I: Tokens>(alloc: Global, tokens: I, limit: u32) -> Result<Reading, AllocError>
    ensures { IfOk result (IsReadAs programs.script limit (I.seen tokens)) }
{
    lasting(of_script(read_script(alloc, tokens, limit)))
}

/// Reads tokens as a module.
fn as_module<I: Tokens>(alloc: Global, tokens: I, limit: u32) -> Result<Reading, AllocError>
    ensures { IfOk result (IsReadAs programs.«module» limit (I.seen tokens)) }
{
    lasting(of_module(read_module(alloc, tokens, limit)))
}

/// Reads tokens as a program.
fn as_program<I: Tokens>(alloc: Global, tokens: I, limit: u32) -> Result<Reading, AllocError>
    ensures { IfOk result (IsReadAs programs.program limit (I.seen tokens)) }
{
    lasting(of_program(read_program(alloc, tokens, limit)))
}

/// The tokens of a text as the code of a script or of a module.
fn tokens_of<'a>(alloc: Global, options: Options, goal: CodeGoal, text: &'a str) -> AnyLexer<'a>
    requires { length text.now < 2 ^ 32 }
    ensures { seen result ≡ source_of options.language goal options.syntax text.now }
{
    lexer_of(alloc, options.language, goal, options.syntax, text)
}

/// Those of a script in whose own code `await` is no operator.
fn script_tokens_of<'a>(alloc: Global, options: Options, text: &'a str) -> AnyLexer<'a>
    requires { length text.now < 2 ^ 32 }
    ensures { seen result ≡ without_await (script_source options text.now) }
{
    let mut tokens = tokens_of(alloc, options, CodeGoal::Script, text);
    let context = tokens.ctx();
    tokens.set_ctx(Context {
        in_parameters: true,
        ..context
    });
    tokens
}

/// Reads a text that is no clean script as a module, and takes one of the two readings.
fn read_again(
    alloc: Global,
    options: Options,
    text: &str,
    script: Reading,
) -> Result<Reading, AllocError>
    requires { length text.now < 2 ^ 32 }
    ensures { IfOk result
        (IsChosen false options.limit (module_source options text.now) script) }
{
    let tokens = tokens_of(alloc, options, CodeGoal::Module, text);
    match as_module(alloc, tokens, options.limit) {
        Ok(other) => Ok(chosen(script, other)),
        Err(error) => {
            script.discard();
            Err(error)
        }
    }
}

/// Reads a text as a script or as a module, whichever it turns out to be.
fn read_either(alloc: Global, options: Options, text: &str) -> Result<Reading, AllocError>
    requires { length text.now < 2 ^ 32 }
    ensures { IfOk result
        (IsEither options.limit (script_source options text.now) (module_source options text.now)) }
{
    let tokens = script_tokens_of(alloc, options, text);
    let script = as_script(alloc, tokens, options.limit)?;
    if is_clean(&script) {
        return Ok(script);
    }
    read_again(alloc, options, text, script)
}

/// Reads a text anew as a program, with the tokens of a module.
fn read_anew(
    alloc: Global,
    options: Options,
    text: &str,
    first: Reading,
) -> Result<Reading, AllocError>
    requires { length text.now < 2 ^ 32 }
    ensures { IfOk result
        (IsTurned true options.limit (module_source options text.now) first) }
{
    first.discard();
    let tokens = tokens_of(alloc, options, CodeGoal::Module, text);
    as_program(alloc, tokens, options.limit)
}

/// Reads a text as a program of the whole language. What turns out to be a module has no comments as in HTML, so it is read anew without them.
fn read_whole_program(alloc: Global, options: Options, text: &str) -> Result<Reading, AllocError>
    requires { length text.now < 2 ^ 32 }
    ensures { IfOk result
        (IsWholeProgram options.limit (script_source options text.now) (module_source options text.now)) }
{
    let tokens = tokens_of(alloc, options, CodeGoal::Script, text);
    let first = as_program(alloc, tokens, options.limit)?;
    if is_clean_module(&first) {
        return read_anew(alloc, options, text, first);
    }
    Ok(first)
}

/// Reads a text as a program.
fn read_as_program(alloc: Global, options: Options, text: &str) -> Result<Reading, AllocError>
    requires { length text.now < 2 ^ 32 }
    ensures { IfOk result
        (IsProgram options.language options.limit (script_source options text.now) (module_source options text.now)) }
{
    match options.language {
        Language::Whole => read_whole_program(alloc, options, text),
        Language::Plain => {
            let tokens = tokens_of(alloc, options, CodeGoal::Script, text);
            as_program(alloc, tokens, options.limit)
        }
    }
}

/// Reads a text. A tree is read with no fault beside it exactly where the text spells it within the limit, and what is read is a function of
/// the text and of what is asked for. It fails only where memory runs out.
pub fn read(alloc: Global, options: Options, text: &str) -> Result<Reading, AllocError>
    requires { length text.now < 2 ^ 32 }
    ensures { IfOk result (Decides options text.now) }
{
    let limit = options.limit;
    match options.goal {
        Goal::Script => as_script(
            alloc,
            tokens_of(alloc, options, CodeGoal::Script, text),
            limit,
        ),
        Goal::Module => as_module(
            alloc,
            tokens_of(alloc, options, CodeGoal::Module, text),
            limit,
        ),
        Goal::Program => read_as_program(alloc, options, text),
        Goal::Auto => read_either(alloc, options, text),
    }
}
