//! What is asked for.

use ecma_estree_text::Extras;
use swc_ecma_parser::input::Syntax;

/// The most levels that a text may nest.
pub const MAX_LIMIT: u32 = 1000;

/// What a text is read as: a goal symbol of ECMA-262, section 5.1.4, or whichever of the two it turns out to be.
#[derive(Clone, Copy)]
pub enum Goal {
    Script,
    Module,
    /// A module where one of the statements makes it one, as `parse_program` of the parser has it; else a script. In the whole language it is
    /// read with the tokens of a script, and anew with those of a module where that makes it one: only a script has comments as in HTML.
    Program,
    /// A script where it can be read as one without a fault, with `await` as the standard has it there; else a module where it can be read as
    /// one without a fault; else the one of which what is told says more of the text.
    Auto,
}

/// How much of JavaScript is read.
#[derive(Clone, Copy)]
pub enum Language {
    /// All of ECMA-262, with the old forms of section B.1, as the tokens of `WholeLexer` have it. Import attributes belong to it.
    Whole,
    /// What the tokens of `Lexer` have: no regular expressions, templates, optional chains, `new.target`, `#a in b`, names with escapes, old
    /// numbers and strings, nor comments as in HTML.
    Plain,
}

/// What is asked for.
#[derive(Clone, Copy)]
pub struct Options {
    pub language: Language,
    pub goal: Goal,
    /// How many levels deep the text may nest.
    pub limit: u32,
    /// The proposals that are read, and what is let pass.
    pub syntax: Syntax,
    /// What of places is written into a tree.
    pub extras: Extras,
    /// Whether a tree has its comments.
    pub comments: bool,
    /// Whether a tree has its tokens.
    pub tokens: bool,
    /// Whether early errors are looked for in a tree, beside those that the parser records.
    pub early: bool,
    /// How many faults and early errors are told at most; all of them, where it is 0. Why there is no tree is told in any case.
    pub max_faults: u32,
}
