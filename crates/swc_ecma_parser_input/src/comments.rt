//! Sources that keep comments beside their tokens.

use crate::tokens::Tokens;
use swc_ecma_parser_common::Comment;
use swc_ecma_parser_error::PResult;

/// A source of tokens that keeps the comments between them.
pub trait CommentSource: Tokens {
    ghost use Rattle.std.specs.Prelude.{◌≡◌, Bool, true, false, List, [], IfOk, IfErr, MatchResult};
    ghost use Rattle.swc_ecma_parser_common.specs.declared.comment.Comment.{Comment};
    ghost use Rattle.swc_ecma_parser_error.specs.Kind.{IsOutOfMemory};
    ghost use Rattle.swc_ecma_parser_input.specs.TokenSource as source;

    /// The comments that it has read and not handed out yet.
    ghost comments: { Self → List Comment };

    /// Whether one of those read since the last such call found no memory.
    ghost is_lossy: { Self → Bool };

    /// Hands out the comments read since the last such call, in order, or says that one of them found no memory. No
    /// comment is left either way, and the tokens stay. It takes no memory.
    fn take_comments(&mut self) -> PResult<Vec<Comment>>
        ensures source { Self.seen self.new ≡ Self.seen self.old }
        ensures err { IfErr result IsOutOfMemory }
        ensures place { IfErr result (λ e. e.span ≡ source.at_start (Self.seen self.old)) }
        ensures comments { IfOk result (λ found. found.items ≡ comments self.old) }
        ensures told { MatchResult result (λ _. is_lossy self.old ≡ false)
            (λ _. is_lossy self.old ≡ true) }
        ensures none_left { comments self.new ≡ [] }
        ensures fresh { is_lossy self.new ≡ false };
}
