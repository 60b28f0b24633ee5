//! The reader of modules: what the rules of imports, exports and modules answer, as functions of the parser's state, and the
//! theorems that tie it to the grammar and to the walk.
#![tactic(auto)]

ghost use Rattle.swc_ecma_parser_module_reader.specs.Entry.{IsOneModule};
ghost use Rattle.swc_ecma_parser_module_reader.specs.ProgramEntry.{IsOneProgram};

/// A law: at most one supported module within a limit spells a list of tokens, and it takes the same tokens.
pub fn one_module()
    ensures { IsOneModule }
{}

/// A law: at most one supported program within a limit spells a list of tokens, and it takes the same tokens.
pub fn one_program()
    ensures { IsOneProgram }
{}
