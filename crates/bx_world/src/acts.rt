//! What is asked of one process beside its runs: by a choice, or by the spawn that it asked for.

/// What a process is to do.
#[derive(Clone, Copy, Debug)]
pub(crate) enum Act {
    /// Take the first signal from that process.
    Hear(u32),
    /// End its wait.
    Expire,
    /// Go on with the child of that pid, which it asked for, linked to it or not.
    Spawned(u32, bool),
    /// Go on without a child: there are too many processes or arguments.
    Unspawned,
}
