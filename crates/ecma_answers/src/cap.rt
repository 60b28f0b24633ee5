//! How many faults are told.

ghost use Rattle.std.specs.Prelude.{◌≡◌};
ghost use Rattle.ecma_answers.specs.Capped as capped;

use ecma_events::EarlyError;
use swc_ecma_parser::error::Error;

/// How many faults and early errors are told where nothing else is asked for.
pub const MAX_FAULTS: u32 = 1000;

/// The first of the recorded faults, so many at most; all of them, where that is 0.
#[tactic(auto, using(std::proofs::lemmas::List::take_all))]
pub fn front(faults: &[Error], most: u32) -> &[Error]
    ensures { result.now ≡ capped.front most faults.now }
{
    if most == 0 || faults.len() <= most as usize {
        return faults;
    }
    &faults[..most as usize]
}

/// The first of the early errors that are told behind so many faults.
#[tactic(auto, using(std::proofs::lemmas::List::take_all))]
pub fn early_front(early: &[EarlyError], faults: usize, most: u32) -> &[EarlyError]
    ensures { result.now ≡ capped.early_front most faults early.now }
{
    let room = (most as usize).saturating_sub(faults);
    if most == 0 || early.len() <= room {
        return early;
    }
    &early[..room]
}

/// How many of so many faults and early errors stand behind those that are told.
pub fn left_out(count: usize, most: u32) -> usize
    ensures { result ≡ capped.left_out most count }
{
    if most == 0 {
        return 0;
    }
    count.saturating_sub(most as usize)
}
