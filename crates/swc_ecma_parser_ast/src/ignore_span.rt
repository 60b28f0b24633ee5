//! Equality of trees but for their spans.

ghost use Rattle.std.specs.Prelude.{◌≡◌, Bool};
ghost use Rattle.std.specs.Option.{option_eq};
ghost use Rattle.std.specs.Cmp.Lexicographic.{pointwise};
ghost use Rattle.swc_ecma_parser_model.specs.Same.{same};
ghost use Rattle.swc_ecma_parser_model.specs.Tree.{Tree};
ghost use Rattle.swc_ecma_parser_ast.specs.Unspanned.{unspanned};

/// Whether two values of an enum are of one form, and alike but for spans. One is matched inside the other, which takes fewer steps than a pair.
macro_rules! are_like_forms {
    ($self:expr, $other:ident, $kind:ident: $($form:ident)+) => {
        match $self {
            $($kind::$form(a) => match $other {
                $kind::$form(b) => a.eq_ignore_span(b),
                _ => false,
            },)+
        }
    };
}

mod exprs;
mod functions;
mod items;
mod leaves;
mod loops;
mod node;
mod objects;
mod stmts;
mod views;

/// A part of a tree, that can be compared with another but for spans.
///
/// It takes time in the size of the two and no memory. A chain such as `a + a + ..` is gone along in a loop.
pub trait EqIgnoreSpan {
    ghost like: { Self → Self → Bool };

    /// Whether the two are alike but for their spans.
    fn eq_ignore_span(&self, other: &Self) -> bool
        ensures { result ≡ like self.now other.now };
}

/// A part of a tree that contracts see as the model's tree. Two are alike but for spans where their trees are the same, each span
/// put to one and the same.
pub trait Viewed: EqIgnoreSpan {
    ghost view: { Self → Tree };

    ghost likes: { (x y : Self) → Self.like x y ≡ same (unspanned (view x)) (unspanned (view y)) };
}

/// Whether two trees, or parts of trees, are alike but for their spans.
pub fn eq_ignore_span<T: Viewed>(a: &T, b: &T) -> bool
    ensures { result ≡ same (unspanned (T.view a.now)) (unspanned (T.view b.now)) }
{
    a.eq_ignore_span(b)
}

impl<T: EqIgnoreSpan> EqIgnoreSpan for Option<T> {
    ghost like = { option_eq T.like };

    fn eq_ignore_span(&self, other: &Option<T>) -> bool {
        match (self, other) {
            (Some(a), Some(b)) => a.eq_ignore_span(b),
            (None, None) => true,
            _ => false,
        }
    }
}

impl<T: EqIgnoreSpan> EqIgnoreSpan for Box<T> {
    ghost like = { λ a b. T.like a.value b.value };

    fn eq_ignore_span(&self, other: &Box<T>) -> bool {
        (**self).eq_ignore_span(&**other)
    }
}

impl<T: EqIgnoreSpan> EqIgnoreSpan for Vec<T> {
    ghost like = { λ a b. pointwise T.like a.items b.items };

    fn eq_ignore_span(&self, other: &Vec<T>) -> bool {
        let mut left = self.iter();
        let mut right = other.iter();
        loop {
            match (left.next(), right.next()) {
                (None, None) => return true,
                (Some(a), Some(b)) => {
                    if !a.eq_ignore_span(b) {
                        return false;
                    }
                }
                _ => return false,
            }
        }
    }
}
