//! A tree as ESTree.

ghost use Rattle.std.specs.Prelude.{◌<◌, ◌^◌, ◌≡◌, [], false, IfOk, OnOk, length};
ghost use Rattle.swc_ecma_parser_model.specs.Tree.{Tree as Model};
ghost use Rattle.swc_ecma_parser_lexer.specs.Collected.{IsReadOn, comments_at};
ghost use Rattle.swc_ecma_parser_lexer.specs.Tokens.{tokens_at};
ghost use Rattle.swc_ecma_parser_whole_lexer.specs.Comments as whole_comments;
ghost use Rattle.swc_ecma_parser_whole_lexer.specs.Whole as whole;
ghost use Rattle.ecma_answers.specs.declared.options.Language.TheVariants as language;
ghost use Rattle.ecma_answers.specs.Spelled.{view_tree};
ghost use Rattle.ecma_answers.specs.Written as spec;
ghost use Rattle.ecma_answers.specs.Written.{AreFields, AreFieldsIn, IsEstree, fields, placed};

use crate::choice::is_module;
use crate::options::{Language, Options};
use crate::parsing::Tree;
use crate::source::{input_of, with_attributes};
use ecma_estree::{write_module, write_program, write_script};
use ecma_estree_lists::{push_comments, push_tokens};
use ecma_estree_text::Places;
use std::alloc::{AllocError, Global};
use swc_ecma_parser::common::Comment;
use swc_ecma_parser::input::{CommentSource, Tokens, is_out_of_memory};
use swc_ecma_parser::lexer::Lexer;
use swc_ecma_parser::token::TokenAndSpan;
use swc_ecma_parser_whole_lexer::{Goal as CodeGoal, WholeLexer};

/// The tokens that a lexer has left. It fails only where memory runs out, for a token too.
fn tokens_of(alloc: Global, lexer: &mut Lexer<'_>) -> Result<Vec<TokenAndSpan>, AllocError>
    ensures tokens { IfOk result (λ tokens. tokens.items ≡ tokens_at lexer.old.place) }
    ensures comments { OnOk result
        (IsReadOn lexer.old.comments lexer.old.place lexer.new.comments lexer.new.place) }
    ensures ended { OnOk result (comments_at lexer.new.place ≡ []) }
{
    let mut tokens = Vec::new(alloc);
    while let Some(token) = lexer.next() {
        if is_out_of_memory(&token.token) {
            return Err(AllocError);
        }
        tokens.push(token)?;
    }
    Ok(tokens)
}

/// The comments that were read.
fn comments_of(lexer: &mut Lexer<'_>) -> Result<Vec<Comment>, AllocError>
    ensures comments { IfOk result
        (λ comments. comments.items ≡ lexer.old.comments.comments.items) }
    ensures lossy { OnOk result (lexer.old.comments.is_lossy ≡ false) }
{
    match lexer.take_comments() {
        Ok(comments) => Ok(comments),
        Err(_) => Err(AllocError),
    }
}

/// Comments and tokens as the fields that are asked for.
fn written_fields(
    alloc: Global,
    options: Options,
    places: &Places<'_>,
    comments: &[Comment],
    tokens: &[TokenAndSpan],
) -> Result<Vec<u8>, AllocError>
    ensures { IfOk result (λ out. out.items ≡ fields options places.now comments.now tokens.now) }
{
    let mut out = Vec::new(alloc);
    if options.comments {
        push_comments(&mut out, places, comments)?;
    }
    if options.tokens {
        push_tokens(&mut out, places, tokens)?;
    }
    Ok(out)
}

/// The comments and tokens of a text in the plain language, as fields that are asked for.
fn plain_fields(alloc: Global, options: Options, places: &Places<'_>) -> Result<Vec<u8>, AllocError>
    requires bound { length places.now.text < 2 ^ 32 }
    requires places { places.now ≡ placed options places.now.text }
    ensures { IfOk result
        (λ fields. (x : Model) → AreFieldsIn language.Plain options places.now.text x fields.items) }
{
    let input = input_of(places.text());
    let mut lexer = Lexer::new(alloc, options.syntax, input, options.comments);
    let tokens = tokens_of(alloc, &mut lexer)?;
    let comments = comments_of(&mut lexer)?;
    written_fields(
        alloc,
        options,
        places,
        comments.as_slice(),
        tokens.as_slice(),
    )
}

/// The same of the whole language.
fn whole_tokens_of(
    alloc: Global,
    lexer: &mut WholeLexer<'_>,
) -> Result<Vec<TokenAndSpan>, AllocError>
    ensures tokens { IfOk result
        (λ tokens. tokens.items
        ≡ whole.tokens_at lexer.old.goal lexer.old.nest lexer.old.has_begun lexer.old.lexer.place) }
    ensures comments { OnOk result
        (whole_comments.IsReadOn lexer.old.lexer.comments
        (whole_comments.comments_at lexer.old.goal lexer.old.nest lexer.old.has_begun lexer.old.lexer.place)
        lexer.new.lexer.comments
        (whole_comments.comments_at lexer.new.goal lexer.new.nest lexer.new.has_begun lexer.new.lexer.place)) }
    ensures ended { OnOk result
        (whole_comments.comments_at lexer.new.goal lexer.new.nest lexer.new.has_begun lexer.new.lexer.place
        ≡ []) }
{
    let mut tokens = Vec::new(alloc);
    while let Some(token) = lexer.next() {
        if is_out_of_memory(&token.token) {
            return Err(AllocError);
        }
        tokens.push(token)?;
    }
    Ok(tokens)
}

/// The comments that were read of the whole language.
fn whole_comments_of(lexer: &mut WholeLexer<'_>) -> Result<Vec<Comment>, AllocError>
    ensures comments { IfOk result
        (λ comments. comments.items ≡ lexer.old.lexer.comments.comments.items) }
    ensures lossy { OnOk result (lexer.old.lexer.comments.is_lossy ≡ false) }
{
    match lexer.take_comments() {
        Ok(comments) => Ok(comments),
        Err(_) => Err(AllocError),
    }
}

/// The code that a tree is of.
fn code_goal(tree: &Tree) -> CodeGoal
    ensures { result ≡ spec.code_goal (view_tree tree.now) }
{
    if is_module(tree) {
        CodeGoal::Module
    } else {
        CodeGoal::Script
    }
}

/// The comments and tokens of a text in the whole language, as fields that are asked for.
fn whole_fields(
    alloc: Global,
    options: Options,
    places: &Places<'_>,
    tree: &Tree,
) -> Result<Vec<u8>, AllocError>
    requires bound { length places.now.text < 2 ^ 32 }
    requires places { places.now ≡ placed options places.now.text }
    ensures { IfOk result
        (λ fields. AreFieldsIn language.Whole options places.now.text (view_tree tree.now) fields.items) }
{
    let input = input_of(places.text());
    let syntax = with_attributes(options.syntax);
    let mut lexer = WholeLexer::new(alloc, syntax, input, options.comments, code_goal(tree));
    let tokens = whole_tokens_of(alloc, &mut lexer)?;
    let comments = whole_comments_of(&mut lexer)?;
    written_fields(
        alloc,
        options,
        places,
        comments.as_slice(),
        tokens.as_slice(),
    )
}

/// The comments and tokens of a text, as fields that are asked for.
fn fields_of(
    alloc: Global,
    options: Options,
    places: &Places<'_>,
    tree: &Tree,
) -> Result<Vec<u8>, AllocError>
    requires bound { length places.now.text < 2 ^ 32 }
    requires places { places.now ≡ placed options places.now.text }
    ensures { IfOk result
        (λ fields. AreFields options places.now.text (view_tree tree.now) fields.items) }
{
    if !options.comments && !options.tokens {
        return Ok(Vec::new(alloc));
    }
    match options.language {
        Language::Plain => plain_fields(alloc, options, places),
        Language::Whole => whole_fields(alloc, options, places, tree),
    }
}

/// A tree as ESTree, with the places of the text that it was read from. It fails only where memory runs out.
pub fn write(
    alloc: Global,
    options: Options,
    text: &str,
    tree: &Tree,
) -> Result<Vec<u8>, AllocError>
    requires { length text.now < 2 ^ 32 }
    ensures { IfOk result (λ out. IsEstree options text.now (view_tree tree.now) out.items) }
{
    let places = Places::new(alloc, text, options.extras)?;
    let fields = fields_of(alloc, options, &places, tree)?;
    match tree {
        Tree::Script(tree) => write_script(alloc, &places, fields.as_slice(), tree),
        Tree::Module(tree) => write_module(alloc, &places, fields.as_slice(), tree),
        Tree::Program(tree) => write_program(alloc, &places, fields.as_slice(), tree),
    }
}
