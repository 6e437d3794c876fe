//! The forms of JSON values: what is read of a value, or the path of the first place that doesn't fit; and what is
//! written.
#![tactic(auto)]

mod arrays;
mod bytes;
mod exact;
mod fault;
mod fields;
mod formed;
mod forms;
mod members;
mod path;
mod refusal;
mod value;
mod written;

pub use bytes::value_of_bytes;
pub use exact::Exact;
pub use fault::FormFault;
pub use fields::{closed, field, field_by, number_field, object, only, optional_field};
pub use formed::Formed;
pub use forms::{ArrayOf, ArrayUpTo, Form, Within};
pub use members::Members;
pub use path::Path;
pub use refusal::{bad_form, refused};
pub use value::{boolean, number, one_of, text};
pub use written::{Writer, Written, array_by};
