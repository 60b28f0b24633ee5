//! Keys of objects, patterns and classes.

ghost use Rattle.std.specs.Prelude.{◌≡◌, IfOk};

use crate::Trees;
use std::alloc::{AllocError, Global};
use swc_ecma_parser_common::Span;
use swc_ecma_parser_model::{BigInt, Ident, Number, Str};

/// Makes keys, private names aside: ECMA-262, "PropertyName" (section 13.2.5). Each function that answers a `Result`
/// fails only where memory runs out, and spans are in byte offsets.
pub trait BuildsKey: Trees {
    ghost use Rattle.swc_ecma_parser_model.specs.Forms as forms;
    ghost use Rattle.swc_ecma_parser_model.specs.Kinds as kinds;
    ghost use Rattle.swc_ecma_parser_model.specs.Tree as tree;
    ghost use Rattle.swc_ecma_parser_model.specs.Tree.{Tree};

    /// A key.
    type Key: Drop;

    ghost key_of: { Self.Key → Tree };

    /// A key that is a word.
    fn ident_key(alloc: Global, ident: Ident) -> Result<Self::Key, AllocError>
        ensures { IfOk result (λ x. key_of x ≡ tree.ident ident.span ident.sym) };

    /// A key that is a string.
    fn str_key(alloc: Global, str: Str) -> Result<Self::Key, AllocError>
        ensures { IfOk result (λ x. key_of x ≡ tree.str str.span str.value str.raw) };

    /// A key that is a number.
    fn num_key(alloc: Global, num: Number) -> Result<Self::Key, AllocError>
        ensures { IfOk result (λ x. key_of x ≡ tree.num num.span num.raw) };

    /// A key that is a big integer.
    fn big_int_key(alloc: Global, big_int: BigInt) -> Result<Self::Key, AllocError>
        ensures { IfOk result (λ x. key_of x ≡ tree.big_int big_int.span big_int.raw) };

    /// A key in brackets; the span covers them.
    fn computed_key(alloc: Global, span: Span, expr: Self::Expr) -> Result<Self::Key, AllocError>
        ensures { IfOk result (λ x. key_of x ≡ tree.computed span (Self.expr_of expr)) };

    /// Whether it is this word, as a word and not as a string.
    fn is_word_key(key: &Self::Key, word: &str) -> bool
        ensures { result ≡ forms.is_ident_named word.now (key_of key.now) };

    /// Whether it is `__proto__`, as a word or a string.
    fn is_proto_key(key: &Self::Key) -> bool
        ensures { result ≡ forms.is_proto_key (key_of key.now) };

    /// Whether it stands in brackets.
    fn is_computed_key(key: &Self::Key) -> bool
        ensures { result ≡ kinds.is_computed (key_of key.now) };
}
