ghost use Rattle.std.specs.Prelude.{◌≡◌};

use crate::function::{Decorator, Function, Param};
use crate::member::{AutoAccessor, ClassProp, PrivateProp, StaticBlock};
use crate::node::{ExprBox, Node};
use crate::object::PropName;
use crate::stmt::{BlockStmt, EmptyStmt};
use swc_ecma_parser_common::{Span, Spanned};
use swc_ecma_parser_model::{Ident, MethodKind, PrivateName};

/// A class as an expression (ECMA-262, 15.7).
#[derive(Debug, PartialEq, Eq, Drop)]
pub struct ClassExpr<N = Node> {
    pub span: Span,
    pub ident: Option<Ident>,
    pub class: Box<Class<N>>,
}

/// A class as a declaration (ECMA-262, 15.7).
#[derive(Debug, PartialEq, Eq, Drop)]
pub struct ClassDecl<N = Node> {
    pub ident: Ident,
    pub class: Box<Class<N>>,
}

/// A class (ECMA-262, 15.7).
#[derive(Debug, PartialEq, Eq, Drop)]
pub struct Class<N = Node> {
    pub span: Span,
    pub decorators: Vec<Decorator<N>>,
    pub body: Vec<ClassMember<N>>,
    pub super_class: Option<ExprBox<N>>,
}

/// A member of a class (ECMA-262, 15.7).
#[derive(Debug, PartialEq, Eq, Drop)]
pub enum ClassMember<N = Node> {
    Constructor(Box<Constructor<N>>),
    Method(Box<ClassMethod<N>>),
    PrivateMethod(Box<PrivateMethod<N>>),
    ClassProp(Box<ClassProp<N>>),
    PrivateProp(Box<PrivateProp<N>>),
    Empty(EmptyStmt),
    StaticBlock(StaticBlock<N>),
    AutoAccessor(Box<AutoAccessor<N>>),
}

/// A constructor (ECMA-262, 15.7).
#[derive(Debug, PartialEq, Eq, Drop)]
pub struct Constructor<N = Node> {
    pub span: Span,
    pub key: PropName<N>,
    pub params: Vec<ParamOrTsParamProp<N>>,
    pub body: Option<BlockStmt<N>>,
}

/// A parameter of a constructor (ECMA-262, 15.1).
#[derive(Debug, PartialEq, Eq, Drop)]
pub enum ParamOrTsParamProp<N = Node> {
    Param(Param<N>),
}

/// A method, getter or setter (ECMA-262, 15.4).
#[derive(Debug, PartialEq, Eq, Drop)]
pub struct ClassMethod<N = Node> {
    pub span: Span,
    pub key: PropName<N>,
    pub function: Box<Function<N>>,
    pub kind: MethodKind,
    pub is_static: bool,
}

/// A method, getter or setter with a private name (ECMA-262, 15.4).
#[derive(Debug, PartialEq, Eq, Drop)]
pub struct PrivateMethod<N = Node> {
    pub span: Span,
    pub key: PrivateName,
    pub function: Box<Function<N>>,
    pub kind: MethodKind,
    pub is_static: bool,
}

impl<N> Spanned for ClassExpr<N> {
    ghost span_of = { λ x. x.span };

    fn span(&self) -> Span {
        self.span
    }
}

impl<N> Spanned for ClassDecl<N> {
    ghost span_of = { λ x. x.class.value.span };

    fn span(&self) -> Span {
        self.class.span
    }
}

impl<N> Spanned for Class<N> {
    ghost span_of = { λ x. x.span };

    fn span(&self) -> Span {
        self.span
    }
}

impl Spanned for ClassMember {
    ghost use Rattle.swc_ecma_parser_model.specs.Forms as model;
    ghost use Rattle.swc_ecma_parser_ast.specs.View.{view_class_member};

    ghost span_of = { λ x. model.span_of (view_class_member x) };

    fn span(&self) -> Span {
        match self {
            ClassMember::Constructor(x) => x.span(),
            ClassMember::Method(x) => x.span(),
            ClassMember::PrivateMethod(x) => x.span(),
            ClassMember::ClassProp(x) => x.span(),
            ClassMember::PrivateProp(x) => x.span(),
            ClassMember::Empty(x) => x.span(),
            ClassMember::StaticBlock(x) => x.span(),
            ClassMember::AutoAccessor(x) => x.span(),
        }
    }
}

impl<N> Spanned for Constructor<N> {
    ghost span_of = { λ x. x.span };

    fn span(&self) -> Span {
        self.span
    }
}

impl Spanned for ParamOrTsParamProp {
    ghost use Rattle.swc_ecma_parser_model.specs.Forms as model;
    ghost use Rattle.swc_ecma_parser_ast.specs.View.{view_param_or_ts_param_prop};

    ghost span_of = { λ x. model.span_of (view_param_or_ts_param_prop x) };

    fn span(&self) -> Span {
        match self {
            ParamOrTsParamProp::Param(x) => x.span(),
        }
    }
}

impl<N> Spanned for ClassMethod<N> {
    ghost span_of = { λ x. x.span };

    fn span(&self) -> Span {
        self.span
    }
}

impl<N> Spanned for PrivateMethod<N> {
    ghost span_of = { λ x. x.span };

    fn span(&self) -> Span {
        self.span
    }
}
