// What the program prints, and how: the output's buffer, characters, lines and columns, names and words, reports; and the entries that they tell of.
#![tactic(auto)]

mod characters;
mod colour;
mod entries;
mod lines;
mod names;
mod output;
mod report;

pub use characters::{Medium, put_shown};
pub use colour::Colour;
pub use entries::{entry_at, first_error};
pub use lines::{Spot, forward, put_caret};
pub use names::{ErrorCode, EventCode, ItemCode};
pub use output::{Output, digits, less, sum};
pub use report::{Refused, put_error_item};
