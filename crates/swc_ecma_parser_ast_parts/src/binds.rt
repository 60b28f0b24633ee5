//! Patterns that bind what they would assign to: ECMA-262, section 15.3. Names alone stand where targets could.

ghost use Rattle.std.specs.Prelude.{◌≡◌, map};
ghost use Rattle.swc_ecma_parser_ast.specs.Parts.{view_option};
ghost use Rattle.swc_ecma_parser_ast.specs.View.{view_object_pat_prop, view_pat};
ghost use Rattle.swc_ecma_parser_model.specs.Targets as targets;
ghost use Rattle.swc_ecma_parser_model.specs.Tree.{trees};

use swc_ecma_parser_ast::{ObjectPatProp, Pat, PatBox};

/// Whether names alone stand in a pattern where targets could.
#[cycle(binding)]
pub fn binds(pat: &Pat) -> bool
    ensures { result ≡ targets.binds (view_pat pat.now) }
{
    match pat {
        Pat::Ident(_) => true,
        Pat::Array(x) => elements_bind(&x.elems),
        Pat::Object(x) => properties_bind(&x.props),
        Pat::Rest(x) => part_binds(&x.arg),
        Pat::Assign(x) => part_binds(&x.left),
        Pat::Expr(_) => false,
        Pat::Invalid(_) => false,
    }
}

/// As `binds`, of a pattern in its handle.
#[cycle(binding)]
fn part_binds(part: &PatBox) -> bool
    ensures { result ≡ targets.binds part.now.node.tree }
{
    match part.get() {
        Some(pat) => binds(pat),
        None => false,
    }
}

/// As `binds`, of each element of an array.
#[cycle(binding)]
fn elements_bind(elems: &[Option<PatBox>]) -> bool
    ensures { result ≡ targets.all_bind (trees (map (view_option (λ b. b.node.tree)) elems.now)) }
{
    for elem in elems {
        if !element_binds(elem) {
            return false;
        }
    }
    true
}

/// As `binds`, of an element; a hole assigns to nothing.
#[cycle(binding)]
fn element_binds(elem: &Option<PatBox>) -> bool
    ensures { result ≡ targets.binds (view_option (λ b. b.node.tree) elem.now) }
{
    match elem {
        Some(part) => part_binds(part),
        None => true,
    }
}

/// As `binds`, of each part of an object.
#[cycle(binding)]
fn properties_bind(props: &[ObjectPatProp]) -> bool
    ensures { result ≡ targets.all_bind (trees (map view_object_pat_prop props.now)) }
{
    for prop in props {
        if !property_binds(prop) {
            return false;
        }
    }
    true
}

/// As `binds`, of a part of an object.
#[cycle(binding)]
fn property_binds(prop: &ObjectPatProp) -> bool
    ensures { result ≡ targets.binds (view_object_pat_prop prop.now) }
{
    match prop {
        ObjectPatProp::KeyValue(x) => part_binds(&x.value),
        ObjectPatProp::Assign(_) => true,
        ObjectPatProp::Rest(x) => part_binds(&x.arg),
    }
}
