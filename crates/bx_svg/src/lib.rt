//! Drawings as SVG, written piece by piece into a text.
#![tactic(auto)]

mod escapes;
mod shapes;
mod tags;

pub use escapes::push_words;
pub use shapes::{
    Point, close_empty, push_box, push_dot, push_element, push_label, push_line, push_tip,
};
pub use tags::{
    close_group, close_tag, open_element, open_group, open_tag, push_counted, push_valued,
};
