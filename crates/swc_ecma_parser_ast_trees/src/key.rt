ghost use Rattle.swc_ecma_parser_ast.specs.View.{view_prop_name};

use crate::Ast;
use std::alloc::{AllocError, Global};
use swc_ecma_parser_ast::{BigInt, ComputedPropName, Ident, Number, PropName, Span, Str};
use swc_ecma_parser_ast_parts::made::Made;
use swc_ecma_parser_trees::BuildsKey;

impl BuildsKey for Ast {
    type Key = PropName;

    ghost key_of = { view_prop_name };

    fn ident_key(alloc: Global, ident: Ident) -> Result<PropName, AllocError> {
        Ok(PropName::Ident(ident))
    }

    fn str_key(alloc: Global, str: Str) -> Result<PropName, AllocError> {
        Ok(PropName::Str(str))
    }

    fn num_key(alloc: Global, num: Number) -> Result<PropName, AllocError> {
        Ok(PropName::Num(num))
    }

    fn big_int_key(alloc: Global, big_int: BigInt) -> Result<PropName, AllocError> {
        Ok(PropName::BigInt(big_int))
    }

    fn computed_key(alloc: Global, span: Span, expr: Made) -> Result<PropName, AllocError> {
        let expr = expr.into_handle();
        Ok(PropName::Computed(ComputedPropName { span, expr }))
    }

    fn is_word_key(key: &PropName, word: &str) -> bool {
        match key {
            PropName::Ident(x) => x.sym.as_str() == word,
            _ => false,
        }
    }

    fn is_proto_key(key: &PropName) -> bool {
        match key {
            PropName::Ident(x) => x.sym.as_str() == "__proto__",
            PropName::Str(x) => x.value.as_str() == "__proto__",
            _ => false,
        }
    }

    fn is_computed_key(key: &PropName) -> bool {
        match key {
            PropName::Computed(_) => true,
            _ => false,
        }
    }
}
