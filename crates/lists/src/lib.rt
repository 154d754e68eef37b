// Lists for people: the items of a text and the events of a text, a row each, and after them what was refused.
#![tactic(auto)]

mod events;
mod items;
mod row;

pub use events::{Unwritten, list_events};
pub use items::list_items;
pub use row::{Form, Style};
