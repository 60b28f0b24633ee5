use swc_ecma_parser_model::{BigInt, Bool, Null, Number, Str};

/// A literal: ECMA-262, section 13.2.3.
#[derive(Debug, PartialEq, Eq, Drop)]
pub enum Literal {
    Str(Str),
    Num(Number),
    BigInt(BigInt),
    Null(Null),
    Bool(Bool),
}
