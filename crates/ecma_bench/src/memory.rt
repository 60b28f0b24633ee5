//! How much memory the process has had.

ghost use Rattle.std.specs.Prelude.{◌≡◌, ◌+◌, ◌%◌, IfSome, IsSomeAnd};

use std::fs;
use std::rt::Files;

/// The number of bytes in what the system says of the process, in kilobytes.
pub fn peak_in(status: &str) -> Option<u64>
    ensures { IfSome result (λ bytes. bytes % 1024 ≡ 0) }
{
    let peak = status.lines().find_map(|line| line.strip_prefix("VmHWM:"))?;
    let kilobytes: u64 = peak.trim().strip_suffix(" kB")?.parse().ok()?;
    kilobytes.checked_mul(1024)
}

/// The most memory that the process has had so far, in bytes, where the system tells it. Whether what it tells is so, no contract
/// can say.
pub fn peak<R: Files + AllocGlobal>(rt: &R) -> Option<u64>
    ensures { IfSome result (λ bytes. bytes % 1024 ≡ 0) }
{
    let status = fs::read_to_string(rt, "/proc/self/status").ok()?;
    peak_in(status.as_str())
}

/// By how much a peak grew, where both are known.
pub fn growth(before: Option<u64>, after: Option<u64>) -> Option<u64>
    ensures { IfSome result (λ n. IsSomeAnd before (λ bytes. after ≡ Some (bytes + n))) }
{
    after?.checked_sub(before?)
}
