//! What holds of every mailbox, whatever was done to it.

ghost use Rattle.std.specs.Prelude.{◌≡◌, ◌↔◌, ◌≤◌, ◌++◌, ℕ, List, MatchOption};
ghost use Rattle.bx_mail.specs.Mail.{empty, current};
ghost use Rattle.bx_mail.specs.History.{Operation, all_done, history, numbers, unnumbered, In, IsLeft, Waits, Rises};

/// Number the messages in order of arrival. After any operations, those passed over and then the rest are the messages
/// that no take gave, in order of their numbers; and the current message, which a take gives, has the least number of
/// those that were not passed over since the last reset or the last take that gave a message.
///
/// Source: The BEAM Book, "The Mailbox"; Erlang Reference Manual, "Receive".
pub fn messages_stay_in_order_of_arrival()
    ensures messages { (os : List Operation) → unnumbered (history os).mail ≡ all_done empty os }
    ensures in_order { (os : List Operation) → Rises (numbers (history os).mail.passed ++ numbers (history os).mail.rest) }
    ensures those_left { (os : List Operation) (n : ℕ) → In n (numbers (history os).mail.passed ++ numbers (history os).mail.rest) ↔ IsLeft (history os) n }
    ensures least { (os : List Operation) → MatchOption (current (history os).mail) ((n : ℕ) → Waits (history os) n → ⊥) (λ m. Waits (history os) m.0 × ((n : ℕ) → Waits (history os) n → m.0 ≤ n)) }
{}
