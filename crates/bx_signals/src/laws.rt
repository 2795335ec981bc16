//! Laws of the definitions: the functions do nothing, and their clauses are the laws.

ghost use Rattle.std.specs.Prelude.{◌≡◌, ℕ, List};
ghost use Rattle.bx_signals.specs.declared.signal.Signal.{Signal};
ghost use Rattle.bx_signals.specs.Channels.{Channels, put, taken_back, put_to_all, taken_back_all};

/// What was put last is what is taken back: then it is as though nothing had been put.
pub fn what_was_put_is_taken_back()
    ensures one { (p q : ℕ) (signal : Signal) (channels : Channels Signal) → taken_back (p, q) (put (p, q) signal channels) ≡ channels }
    ensures all { (p : ℕ) (qs : List ℕ) (signal : Signal) (channels : Channels Signal) → taken_back_all p qs (put_to_all p qs signal channels) ≡ channels }
{}
