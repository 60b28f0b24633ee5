//! Counting tokens.

ghost use Rattle.std.specs.Prelude.{◌≡◌, length, IfSome};

use swc_ecma_parser::input::Tokens;

/// How many tokens a source has left, where that fits.
pub fn count<I: Tokens>(mut source: I) -> Option<u64>
    ensures { IfSome result (λ n. n ≡ length (I.seen source).left) }
{
    for count in 0..u64::MAX {
        if source.next().is_none() {
            return Some(count);
        }
    }
    None
}
