//! How large the types of the tree are, in bytes: a node is as large as the largest part that it may hold, and a rule's frame is
//! some multiple of what it answers. So none may grow unseen.

use swc_ecma_parser_ast::{Expr, Key, Node, Pat, Stmt};

const _: () = prove!(size_of::<Node>() == 16);

const _: () = prove!(size_of::<Expr>() == 80);

const _: () = prove!(size_of::<Pat>() == 48);

const _: () = prove!(size_of::<Stmt>() == 72);

const _: () = prove!(size_of::<Key>() == 72);
