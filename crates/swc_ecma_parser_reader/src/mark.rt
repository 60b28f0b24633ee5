/// What a call has met that no recovery may hide.
#[derive(Clone, Copy, Debug, PartialEq, Eq)]
pub enum Mark {
    /// Something would stand deeper than the limit.
    TooDeep,
    /// Memory ran out.
    OutOfMemory,
}
