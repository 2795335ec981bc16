//! The natives.

/// A native: a function of module `erlang`, no guard BIF, that a call of an external function runs.
///
/// Source: module `erlang` of the ERTS Reference Manual, and the Erlang Reference Manual for the operators `!` and `++`.
#[derive(Clone, Copy, Debug, PartialEq, Eq)]
pub enum Native {
    /// `spawn/3`.
    Spawn,
    /// `spawn_link/3`.
    SpawnLink,
    /// `link/1`.
    Link,
    /// `unlink/1`.
    Unlink,
    /// `exit/1`, which ends the caller.
    Exit,
    /// `throw/1`.
    Throw,
    /// `error/1`.
    Error,
    /// `exit/2`, which sends an exit signal.
    ExitSignal,
    /// `process_flag/2`.
    ProcessFlag,
    /// `send/2` and the operator `!`.
    Send,
    /// `display/1`.
    Display,
    /// The operator `++`.
    Append,
    /// `setelement/3`.
    SetElement,
    /// `list_to_tuple/1`.
    ListToTuple,
    /// `tuple_to_list/1`.
    TupleToList,
}
