//! Looks into JSON values: each call gives the value that it asks for, or the fault with the path where it is.
#![tactic(auto)]

mod fault;
mod letters;
mod members;
mod parsing;
mod path;
mod scalar;
mod words;

pub use fault::ViewFault;
pub use letters::{is_label, is_name};
pub use members::{
    is_null, is_object, is_there, list, member, member_count, optional, present_member,
};
pub use parsing::parse;
pub use path::{copy_of, index_path, member_path};
pub use scalar::{text, truth, whole};
pub use words::{
    ensured, label_member, list_member, name_member, named_count, object, optional_list,
    optional_text, text_member, whole_member, within_limit,
};
