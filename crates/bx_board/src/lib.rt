//! What comes of a plan's schedules: chains leased to workers, and the report.
#![tactic(auto)]

mod boards;
mod books;
mod campaigns;
pub mod laws;
mod reports;
mod slots;
mod texts;
mod walks;
mod working;

pub use boards::{Board, Campaign, FreeGate, Gate};
pub use books::Book;
pub use campaigns::campaign;
pub use reports::{Report, Scheduled};
pub use slots::{ArcEnd, Counts, Event};
pub use texts::report_text;
pub use walks::report_alone;
pub use working::{Lease, Piece, work};
