//! The kinds and places of a tree's nodes, read back from its text as ESTree: proofs alone.
#![tactic(auto)]

ghost use Rattle.ecma_estree_nodes.specs.Law.{ListsAreQuiet, ReadsBack};

/// A law: from the text of a tree the kind and the place of each of its nodes are read back, in their order.
pub fn reads_back()
    ensures { ReadsBack }
{}

/// A law: comments and tokens, as `ecma_estree_lists` writes them, are no nodes and leave no string open. So the first law holds of a
/// whole with either, with both or with none.
pub fn lists_are_quiet()
    ensures { ListsAreQuiet }
{}
