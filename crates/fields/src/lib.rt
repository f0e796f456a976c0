// Tagged fields, read where their bytes are: one byte tag, two bytes length, the content.
#![tactic(auto)]

mod bad_field;
mod reader;

pub use bad_field::BadField;
pub use reader::Reader;
