//! JSON as data, how its text is read, and the trees of ESTree as JSON, read back from their text: proofs alone.
#![tactic(auto)]

ghost use Rattle.ecma_estree_json.specs.Law.{ReadsBack};
ghost use Rattle.ecma_estree_json.specs.Lists.{ListsAreFields};

/// A law: the text of a tree, read as RFC 8259 has it, is the tree's JSON: each node with its fields, their values and their order.
pub fn reads_back()
    ensures { ReadsBack }
{}

/// A law: comments and tokens, as `ecma_estree_lists` writes them, are fields. So the first law holds of a whole with either, with both or
/// with none.
pub fn lists_are_fields()
    ensures { ListsAreFields }
{}
