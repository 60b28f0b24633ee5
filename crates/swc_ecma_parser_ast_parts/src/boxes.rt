//! Parts of a form, each in the place that it takes there.

ghost use Rattle.std.specs.Prelude.{◌≡◌, ◌⊎◌, Ok, Err, IfOk, IfErr, IfSome, map, option_map};
ghost use Rattle.swc_ecma_parser_ast.specs.Parts.{view_option};
ghost use Rattle.swc_ecma_parser_ast.specs.View.{view_block_stmt, view_class_member, view_key_value_pat_prop, view_param, view_pat, view_prop_name, view_stmt};
ghost use Rattle.swc_ecma_parser_model.specs.Tree as tree;
ghost use Rattle.swc_ecma_parser_trees.specs.Parts.{part_of};

use crate::made::Made;
use std::alloc::{AllocError, Global};
use swc_ecma_parser_ast::{
    BlockStmt, ClassMember, Constructor, ExprBox, KeyValuePatProp, Param, ParamOrTsParamProp, Pat,
    PatBox, PropName, Span, Stmt, StmtBox,
};

/// A part of a form that is made of a node, with the same model.
pub trait Part: Drop {
    ghost use Rattle.swc_ecma_parser_model.specs.Tree.{Tree};

    /// The node that it is made of.
    type Whole: Drop;

    ghost part_view: { Self → Tree };

    ghost whole_view: { Self.Whole → Tree };

    /// The part; it fails only where memory runs out.
    fn placed(alloc: Global, whole: Self::Whole) -> Result<Self, AllocError>
        ensures { IfOk result (λ x. part_view x ≡ whole_view whole) };
}

impl Part for ExprBox {
    ghost use Rattle.swc_ecma_parser_ast_parts.specs.View.{view_made};

    type Whole = Made;

    ghost part_view = { λ b. b.node.tree };

    ghost whole_view = { view_made };

    fn placed(alloc: Global, whole: Made) -> Result<ExprBox, AllocError> {
        Ok(whole.into_handle())
    }
}

impl Part for PatBox {
    ghost use Rattle.swc_ecma_parser_ast.specs.View.{view_pat};

    type Whole = Pat;

    ghost part_view = { λ b. b.node.tree };

    ghost whole_view = { view_pat };

    fn placed(alloc: Global, whole: Pat) -> Result<PatBox, AllocError> {
        PatBox::new(alloc, whole)
    }
}

impl Part for ParamOrTsParamProp {
    ghost use Rattle.swc_ecma_parser_ast.specs.View.{view_param, view_param_or_ts_param_prop};

    type Whole = Param;

    ghost part_view = { view_param_or_ts_param_prop };

    ghost whole_view = { view_param };

    fn placed(alloc: Global, whole: Param) -> Result<ParamOrTsParamProp, AllocError> {
        Ok(ParamOrTsParamProp::Param(whole))
    }
}

impl<P: Part> Part for Option<P> {
    ghost use Rattle.swc_ecma_parser_trees.specs.Parts.{part_of};

    type Whole = Option<P::Whole>;

    ghost part_view = { part_of P.part_view };

    ghost whole_view = { part_of P.whole_view };

    fn placed(alloc: Global, whole: Option<P::Whole>) -> Result<Option<P>, AllocError>
        ensures { IfOk result (λ x. part_of P.part_view x ≡ part_of P.whole_view whole) }
    {
        match whole {
            Some(whole) => Ok(Some(P::placed(alloc, whole)?)),
            None => Ok(None),
        }
    }
}

/// Parts in order; it fails only where memory runs out.
pub fn all<P: Part>(alloc: Global, wholes: Vec<P::Whole>) -> Result<Vec<P>, AllocError>
    ensures { IfOk result (λ xs. map P.part_view xs.items ≡ map P.whole_view wholes.items) }
{
    let mut found = Vec::new(alloc);
    'wholes: for whole in wholes {
        found.push(P::placed(alloc, whole)?)?;
    }
    Ok(found)
}

/// What was made with what stands beside it, which is let go where nothing was made.
pub fn beside<A, B: Drop>(made: Result<A, AllocError>, other: B) -> Result<(A, B), AllocError>
    ensures made { IfOk result (λ x. made ≡ Ok x.0) }
    ensures other { IfOk result (λ x. other ≡ x.1) }
    ensures lost { IfErr result (λ e. made ≡ Err e) }
{
    match made {
        Ok(made) => Ok((made, other)),
        Err(e) => Err(e),
    }
}

/// As `beside`, of what may be none.
pub fn beside_found<A, B: Drop>(
    found: Result<Option<A>, AllocError>,
    other: B,
) -> Result<Option<(A, B)>, AllocError>
    ensures found { IfOk result (λ x. found ≡ Ok (option_map (λ p. p.0) x)) }
    ensures other { IfOk result (λ x. IfSome x (λ p. other ≡ p.1)) }
    ensures lost { IfErr result (λ e. found ≡ Err e) }
{
    match found {
        Ok(Some(found)) => Ok(Some((found, other))),
        Ok(None) => Ok(None),
        Err(e) => Err(e),
    }
}

/// Two things that were made, or neither.
pub fn both<A: Drop, B: Drop>(
    first: Result<A, AllocError>,
    second: Result<B, AllocError>,
) -> Result<(A, B), AllocError>
    ensures first { IfOk result (λ x. first ≡ Ok x.0) }
    ensures second { IfOk result (λ x. second ≡ Ok x.1) }
    ensures lost { IfErr result (λ e. (first ≡ Err e) ⊎ (second ≡ Err e)) }
{
    let (first, second) = beside(first, second)?;
    let (second, first) = beside(second, first)?;
    Ok((first, second))
}

/// A statement that may be left out, in its place.
pub fn optional_stmt(alloc: Global, stmt: Option<Stmt>) -> Result<Option<StmtBox>, AllocError>
    ensures { IfOk result (λ x. view_option (λ b. b.node.tree) x ≡ part_of view_stmt stmt) }
{
    match stmt {
        Some(stmt) => Ok(Some(StmtBox::new(alloc, stmt)?)),
        None => Ok(None),
    }
}

/// The elements of an array's pattern. It stands here, since `all` is proved to drop its parts in each crate that calls it.
pub fn pattern_elements(
    alloc: Global,
    elems: Vec<Option<Pat>>,
) -> Result<Vec<Option<PatBox>>, AllocError>
    ensures { IfOk result
        (λ xs. map (part_of (λ b. b.node.tree)) xs.items ≡ map (part_of view_pat) elems.items) }
{
    all::<Option<PatBox>>(alloc, elems)
}

/// A constructor; here as `pattern_elements` is.
pub fn constructor(
    alloc: Global,
    span: Span,
    key: PropName,
    params: Vec<Param>,
    body: BlockStmt,
) -> Result<ClassMember, AllocError>
    ensures { IfOk result (λ x. view_class_member x
        ≡ tree.constructor span (view_prop_name key) (tree.listed (map view_param params.items)) (view_block_stmt body)) }
{
    let params = all::<ParamOrTsParamProp>(alloc, params);
    let (params, (key, body)) = beside(params, (key, body))?;
    let constructor = Constructor {
        span,
        key,
        params,
        body: Some(body),
    };
    Ok(ClassMember::Constructor(constructor.boxed(alloc)?))
}

/// A key with its pattern; here as `pattern_elements` is.
pub fn key_value_pattern(
    alloc: Global,
    span: Span,
    key: PropName,
    value: Pat,
) -> Result<KeyValuePatProp, AllocError>
    ensures { IfOk result
        (λ x. view_key_value_pat_prop x
        ≡ tree.key_value_pat_prop span (view_prop_name key) (view_pat value)) }
{
    let (value, key) = beside(PatBox::new(alloc, value), key)?;
    Ok(KeyValuePatProp { span, key, value })
}
