//! Why a run of an instruction was not all that there is to it.

ghost use Rattle.std.specs.Prelude.{◌≡◌, true};
ghost use Rattle.bx_bifs.specs.Asks.{is_ask};
ghost use Rattle.bx_proc.specs.declared.stops.Why.TheVariants as why;

use bx_bifs::Native;
use bx_terms::Trap;
use std::alloc::{AllocError, AllocFailed};
use std::marker::Model;

/// Why a run of an instruction was not all that there is to it. Nothing has changed then, but that the reason of an end waits
/// in the process.
#[derive(Clone, Copy, Debug, PartialEq, Eq)]
pub enum Why {
    /// Memory ran out.
    Memory,
    /// It has no meaning here.
    Trapped(Trap),
    /// It asks others for a native, whose arguments stand in x0 on.
    Asks(Native),
    /// It sends what x1 holds to the pid in x0.
    Sends,
    /// It ends the process.
    Ends,
}

/// Why an instruction stopped, as one byte.
#[derive(Clone, Copy, Debug, PartialEq, Eq)]
enum Code {
    Memory,
    Sends,
    Ends,
    Unset,
    NotATerm,
    NoFrame,
    FrameSize,
    NoTag,
    NoPending,
    BadPlace,
    IntegerRange,
    TermHeight,
    NoMessage,
    WrongShape,
    Unsupported,
    AskSpawn,
    AskSpawnLink,
    AskLink,
    AskUnlink,
    AskExitSignal,
    AskSend,
    AskDisplay,
}

/// Why a run was not all that there is to it, seen as a `Why`: one byte, so that an answer with it lies in registers.
#[derive(Debug, Drop)]
pub struct Stop {
    code: Code,
}

impl Model for Stop {
    ghost use Rattle.bx_proc.specs.declared.stops.Why.{Why};
    ghost use Rattle.bx_proc.specs.contracts.stops.Why as whys;
    ghost use Rattle.bx_proc.specs.Codes.{why_of};

    ghost Value = { Why };

    ghost coded = { whys.the_row.coded };

    ghost view = { λ s. why_of s.code };
}

impl Stop {
    #[inline(always)]
    pub fn memory() -> Stop
        ensures { result ≡ why.Memory }
    {
        Stop { code: Code::Memory }
    }

    #[inline(always)]
    pub fn sends() -> Stop
        ensures { result ≡ why.Sends }
    {
        Stop { code: Code::Sends }
    }

    #[inline(always)]
    pub fn ends() -> Stop
        ensures { result ≡ why.Ends }
    {
        Stop { code: Code::Ends }
    }

    #[inline(always)]
    pub fn trapped(trap: Trap) -> Stop
        ensures { result ≡ why.Trapped trap }
    {
        Stop {
            code: match trap {
                Trap::Unset => Code::Unset,
                Trap::NotATerm => Code::NotATerm,
                Trap::NoFrame => Code::NoFrame,
                Trap::FrameSize => Code::FrameSize,
                Trap::NoTag => Code::NoTag,
                Trap::NoPending => Code::NoPending,
                Trap::BadPlace => Code::BadPlace,
                Trap::IntegerRange => Code::IntegerRange,
                Trap::TermHeight => Code::TermHeight,
                Trap::NoMessage => Code::NoMessage,
                Trap::WrongShape => Code::WrongShape,
                Trap::Unsupported => Code::Unsupported,
            },
        }
    }

    #[inline(always)]
    pub fn asks(native: Native) -> Stop
        requires { is_ask native ≡ true }
        ensures { result ≡ why.Asks native }
    {
        Stop {
            code: match native {
                Native::Spawn => Code::AskSpawn,
                Native::SpawnLink => Code::AskSpawnLink,
                Native::Link => Code::AskLink,
                Native::Unlink => Code::AskUnlink,
                Native::ExitSignal => Code::AskExitSignal,
                Native::Send => Code::AskSend,
                Native::Display => Code::AskDisplay,
                _ => Code::Memory, // not reached
            },
        }
    }

    #[inline(always)]
    pub fn why(&self) -> Why
        ensures { result ≡ self.now }
    {
        match self.code {
            Code::Memory => Why::Memory,
            Code::Sends => Why::Sends,
            Code::Ends => Why::Ends,
            Code::Unset => Why::Trapped(Trap::Unset),
            Code::NotATerm => Why::Trapped(Trap::NotATerm),
            Code::NoFrame => Why::Trapped(Trap::NoFrame),
            Code::FrameSize => Why::Trapped(Trap::FrameSize),
            Code::NoTag => Why::Trapped(Trap::NoTag),
            Code::NoPending => Why::Trapped(Trap::NoPending),
            Code::BadPlace => Why::Trapped(Trap::BadPlace),
            Code::IntegerRange => Why::Trapped(Trap::IntegerRange),
            Code::TermHeight => Why::Trapped(Trap::TermHeight),
            Code::NoMessage => Why::Trapped(Trap::NoMessage),
            Code::WrongShape => Why::Trapped(Trap::WrongShape),
            Code::Unsupported => Why::Trapped(Trap::Unsupported),
            Code::AskSpawn => Why::Asks(Native::Spawn),
            Code::AskSpawnLink => Why::Asks(Native::SpawnLink),
            Code::AskLink => Why::Asks(Native::Link),
            Code::AskUnlink => Why::Asks(Native::Unlink),
            Code::AskExitSignal => Why::Asks(Native::ExitSignal),
            Code::AskSend => Why::Asks(Native::Send),
            Code::AskDisplay => Why::Asks(Native::Display),
        }
    }
}

impl From<AllocError> for Stop {
    ghost use Rattle.std.specs.Prelude.{◌≡◌};
    ghost use Rattle.bx_proc.specs.declared.stops.Why.TheVariants.{Memory};

    ghost from_gives = { λ _ s. s ≡ Memory };

    #[inline(always)]
    fn from(_: AllocError) -> Stop {
        Stop::memory()
    }
}

impl<T: Drop> From<AllocFailed<T>> for Stop {
    ghost use Rattle.std.specs.Prelude.{◌≡◌};
    ghost use Rattle.bx_proc.specs.declared.stops.Why.TheVariants.{Memory};

    ghost from_gives = { λ _ s. s ≡ Memory };

    #[inline(always)]
    fn from(_: AllocFailed<T>) -> Stop {
        Stop::memory()
    }
}

impl From<Trap> for Stop {
    ghost use Rattle.std.specs.Prelude.{◌≡◌};
    ghost use Rattle.bx_proc.specs.declared.stops.Why.TheVariants.{Trapped};

    ghost from_gives = { λ trap s. s ≡ Trapped trap };

    #[inline(always)]
    fn from(trap: Trap) -> Stop {
        Stop::trapped(trap)
    }
}
