//! What the reader gives is exactly what the language reads, so that each entry of the parser decides: proofs alone.
#![tactic(auto)]

ghost use Rattle.swc_ecma_parser_exactness.specs.Supports.{ReadIsSupported, ReadEntryIsSupported, ReadProgramIsSupported};
ghost use Rattle.swc_ecma_parser_exactness.specs.Unique.{OneScript, OneModule, OneProgram};

/// A law: whatever the grammar of the whole language reads is supported, and so is what any entry reads of tokens that are in order
/// where an export has decorators.
pub fn supports_the_language()
    ensures whatever { ReadIsSupported }
    ensures entries { ReadEntryIsSupported }
    ensures programs { ReadProgramIsSupported }
{}

/// A law: at most one tree of the language within a limit stands on a list as a script, a module or a program.
pub fn reads_one()
    ensures scripts { OneScript }
    ensures modules { OneModule }
    ensures programs { OneProgram }
{}
