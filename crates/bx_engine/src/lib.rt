//! The engines of `bxemu`: what the program's commands do, over readers and a writer.
#![tactic(auto)]

mod campaigns;
mod dis;
mod failures;
mod forms;
mod inputs;
mod joints;
pub mod laws;
mod loads;
mod plan_lines;
mod runs;
mod sources;
mod starts;
mod tidying;
mod units;

pub use campaigns::{Workers, campaign_text};
pub use dis::dis_text;
pub use failures::{Failure, fault_line};
pub use forms::Form;
pub use inputs::{INPUT_LIMIT, MOST_ASKS, Unread, read_input};
pub use loads::{image_of, located_image_of, plan_in};
pub use plan_lines::push_plan;
pub use runs::{entry_in, run_text};
pub use sources::Sources;
pub use starts::{Start, start_of, token_at};
pub use tidying::tidy_text;
