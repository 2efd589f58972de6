//! A run as a page that stands alone: it zooms, and shows what stands under the pointer.
#![tactic(auto)]

mod page;
mod script;

pub use page::{page_of, page_text};
