//! The reader: what each rule of the parser answers, as a function of its state, and the theorems that tie it to the
//! grammar and to the walk.
#![tactic(auto)]

mod mark;

ghost use Rattle.swc_ecma_parser_reader.specs.Entry.{IsOneScript};

pub use mark::Mark;

/// A law: at most one supported tree within a limit spells a list of tokens as a script, and it takes the same tokens.
pub fn one_script()
    ensures { IsOneScript }
{}
