//! Patterns and parameters of functions and constructors.

use crate::parameters::Parameter;
use swc_ecma_parser_ast::{Param, ParamOrTsParamProp, Pat};

impl Parameter for Pat {
    ghost use Rattle.swc_ecma_parser_ast.specs.View.{view_pat};

    ghost parameter = { view_pat };

    fn is_plain(&self) -> bool {
        match self {
            Pat::Ident(_) => true,
            _ => false,
        }
    }
}

impl Parameter for Param {
    ghost use Rattle.swc_ecma_parser_ast.specs.View.{view_param};

    ghost parameter = { view_param };

    fn is_plain(&self) -> bool {
        match &self.pat {
            Pat::Ident(_name) => true,
            _ => false,
        }
    }
}

impl Parameter for ParamOrTsParamProp {
    ghost use Rattle.swc_ecma_parser_ast.specs.View.{view_param_or_ts_param_prop};

    ghost parameter = { view_param_or_ts_param_prop };

    fn is_plain(&self) -> bool {
        match self {
            ParamOrTsParamProp::Param(param) => param.is_plain(),
        }
    }
}
