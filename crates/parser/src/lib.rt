// The parser's view of an item tape as tokens, and of an event tape. Ignored items are passed over.
#![tactic(auto)]

mod events;
mod token;
mod tokens;

pub use events::Events;
pub use token::{Name, Peeked, Reached, TokenKind, Word};
pub use tokens::Tokens;
