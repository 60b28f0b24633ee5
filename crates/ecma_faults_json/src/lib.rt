//! Faults as JSON, read back from their text: proofs alone.
#![tactic(auto)]

ghost use Rattle.ecma_faults_json.specs.Law.{FaultsReadBack};

/// A law: the line of a fault, read as RFC 8259 has it, is an object with the fields that `docs/ESTREE.md` tells.
pub fn faults_read_back()
    ensures { FaultsReadBack }
{}
