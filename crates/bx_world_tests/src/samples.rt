//! What tests of worlds share.

/// What stands behind the number of choices, whatever the order.
pub const TALKED: &str =
    "\nstate quiet\nprocess <0.0.0> ended normal\nprocess <0.1.0> ended normal\noutput <0.0.0> b\nend\n";
