//! No span of what the reader of modules answers starts after its end: proofs alone.
#![tactic(auto)]

ghost use Rattle.swc_ecma_parser_module_span_order.specs.Laws.{ModulesRunForward, ProgramsRunForward, ItemsRunForward, ModulesFollow, ProgramsFollow, ItemsFollow};

/// A law: of tokens that stand one behind another, each span of a module, a program or an item of a module runs forward, whatever is
/// recorded.
pub fn runs_forward()
    ensures modules { ModulesRunForward }
    ensures programs { ProgramsRunForward }
    ensures items { ItemsRunForward }
{}

/// A law: of such tokens a module, a program or an item stands on what was read, and the items of a whole stand one behind another.
pub fn items_follow()
    ensures modules { ModulesFollow }
    ensures programs { ProgramsFollow }
    ensures items { ItemsFollow }
{}
