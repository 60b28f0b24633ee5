use swc_ecma_parser_common::Atom;

/// What stands around the body of a function and does not reach into it: the labels, and whether something was read that makes a
/// program a module.
#[derive(Debug, PartialEq, Eq, Drop)]
pub struct Around {
    pub labels: Vec<Atom>,
    pub found_module_item: bool,
}
