//! The command line: from its words to a request, with the values of its options, or to the text of
//! the usage fault.
//!
//! ```
//! fn files<'a>(alloc: Global, words: &'a [String]) -> Option<Vec<&'a str>> {
//!     match read_request(alloc, words) {
//!         Request::Run(_, files) => Some(files),
//!         _ => None,
//!     }
//! }
//! ```
#![tactic(auto)]

mod action;
mod bases;
mod command_line;
mod command_table;
mod image_options;
mod image_request;
mod kind;
mod met;
mod option_text;
mod shown;
mod usage_fault;

pub use crate::action::{Action, Asked};
pub use crate::command_line::{Request, Task, read_request};
pub use crate::image_options::{ImageOptions, RequestedJob};
pub use crate::image_request::ImageRequest;
pub use crate::shown::shown_word;
