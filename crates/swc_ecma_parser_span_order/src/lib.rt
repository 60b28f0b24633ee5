//! No span of what the reader answers starts after its end: proofs alone.
#![tactic(auto)]

ghost use Rattle.swc_ecma_parser_span_order.specs.Laws.{StatementsRunForward, ScriptsRunForward, StatementsFollow, ScriptsFollow};

/// A law: of tokens that stand one behind another, each span of a statement or a script runs forward, whatever is recorded.
pub fn runs_forward()
    ensures statements { StatementsRunForward }
    ensures scripts { ScriptsRunForward }
{}

/// A law: of such tokens a statement or a script stands on what was read, and the items of a script stand one behind another.
pub fn items_follow()
    ensures statements { StatementsFollow }
    ensures scripts { ScriptsFollow }
{}
