//! The language that is read: the grammar as a relation between a tree and the tokens that spell it, and the walk over a
//! tree that lists its faults. Every definition stands in `specs/`: the rules in `specs/language`, what they are made of beside
//! that folder, and in `specs/scaffold` what readers and proofs use besides, in which nothing has to be believed.
#![tactic(auto)]

mod class;
mod position;

ghost use Rattle.swc_ecma_parser_grammar.specs.Levels.{LevelsAreDepth};
ghost use Rattle.swc_ecma_parser_grammar.specs.language.Plain.{PlainListsArePlain};
ghost use Rattle.swc_ecma_parser_grammar.specs.language.Laws.{FollowIsLocal, Progress, Shortens, SpansAreTokens, WalkIsTabled, WalkLooksAtFew};

pub use class::Class;
pub use position::Position;

/// A number of levels limits how deep a tree of the language nests, and nothing else.
pub fn within_levels()
    ensures { LevelsAreDepth }
{}

/// Whatever the grammar of the whole language reads takes at least one token, the last of which is the one read last; so fewer
/// tokens are left behind it.
pub fn takes_tokens()
    ensures behind { Progress }
    ensures fewer { Shortens }
{}

/// Every fault that the walk over a tree finds is of a kind that is tabled.
pub fn finds_tabled_kinds()
    ensures { WalkIsTabled }
{}

/// What the walk finds depends on the settings, on whether code is strict and in a function, on what may be left by `break` and
/// `continue`, and on the labels around; on nothing else of the code around.
pub fn walks_by_few_flags()
    ensures { WalkLooksAtFew }
{}

/// Whether something goes on with an expression depends, in the code that it is read as, on the first token behind it alone; for
/// the head of an arrow function on the first two tokens of the expression too.
pub fn looks_one_token_ahead()
    ensures { FollowIsLocal }
{}

/// The span of whatever the grammar of the whole language reads goes from the start of its first token to the end of its last, but
/// for the decorators that a function or an export leaves out, the parentheses in a decorator that the tree does not keep, and
/// the word before the name of an `await using` in the head of a loop.
pub fn spans_tokens()
    ensures { SpansAreTokens }
{}

/// Of a list without the tokens of regular expressions, templates, optional chains, `new.target`, `#a in b` and words with escapes no
/// tree with one of these forms is read.
pub fn reads_plain_lists()
    ensures { PlainListsArePlain }
{}
