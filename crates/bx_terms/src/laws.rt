//! Laws of the definitions that the contracts cite. No call does anything: its `ensures` is the law.

mod atoms;
mod terms;

pub use atoms::{
    fixed_names, fixed_numbers, named_text_is_found, naming_again, numbers_stay,
    order_of_first_use, text_and_number, texts_are_distinct,
};
pub use terms::{
    atoms_compare_by_character_codes, equal_in_order_is_equal, heights, kinds_stand_in_order,
    lists_compare_by_elements, order_is_total, printed_lists, printed_tuples, same_terms_are_equal,
    tuples_compare_by_size_then_elements, utf8_keeps_order,
};
