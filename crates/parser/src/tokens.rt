// An item tape as tokens: the next one from an item on.
ghost use Rattle.std.specs.Prelude.{◌≡◌, ◌+◌, ◌≤◌, ◌<◌, length};
ghost use Rattle.rules.specs.Items.{items as items_of};
ghost use Rattle.syntax.specs.Words.{word_of, ignored};
ghost use Rattle.parser.specs.Kinds.{number_of};
ghost use Rattle.parser.specs.View.{Holds, IsCode, kind_of, Front};

use crate::token::{Peeked, TokenKind, Word};
use codes::{Fault, Kind};

// The kind of a Name, by its bytes.
fn word_kind(word: &[u8]) -> TokenKind
    ensures { number_of result ≡ word_of word.now }
{
    if word == b"true".as_slice() {
        return TokenKind::Word(Word::True);
    }
    if word == b"false".as_slice() {
        return TokenKind::Word(Word::False);
    }
    if word == b"null".as_slice() {
        return TokenKind::Word(Word::Null);
    }
    if word == b"on".as_slice() {
        return TokenKind::Word(Word::On);
    }
    TokenKind::Kind(Kind::Name)
}

fn is_ignored(code: u8) -> bool
    ensures { result ≡ ignored code }
{
    base::within(Kind::Whitespace as u8, Kind::Comma as u8, code)
}

// The kind of the token that an item is.
fn token_kind(text: &[u8], e: tape::Entry) -> TokenKind
    requires code { IsCode e.code }
    requires inside { e.start + e.size ≤ length text.now }
    ensures { number_of result ≡ kind_of text.now e.code e.start e.size }
{
    if e.code == Kind::Name as u8 {
        return word_kind(reader::part(text, e.start, e.size));
    }
    match Kind::try_from(e.code) {
        Ok(kind) => TokenKind::Kind(kind),
        Err(_) => TokenKind::Error(Fault::try_from(e.code - codes::kind::ERROR).unwrap()),
    }
}

// A text and the tape that holds its items.
// Stays: what reads a grammar takes `tokens`, `depth` and `events` one by one. A struct of them would be lent for writing, and each of those functions
// would have to promise that text, items and depth stay: no plainer. And a type is walked twice over one `tokens`, with two `events`.
#[derive(Clone, Copy)]
pub struct Tokens<'a> {
    pub text: &'a [u8],
    pub items: &'a [u8],
    ghost holds: { Holds text.now items.now },
}

impl Tokens<'_> {
    // The first token from item number `at` on.
    pub fn peek(&self, at: usize) -> Peeked
        requires { at < length (items_of self.now.text.now) }
        ensures { Front self.now.text.now at result }
    {
        let mut i = at;
        // Stays: a `for` or a chain over the numbers from `at` on would need an end, and an answer for it: none is reached, as the last item is Eof.
        loop {
            let e = tape::get_entry(self.items, i);
            i += 1;
            if !is_ignored(e.code) {
                return Peeked {
                    kind: token_kind(self.text, e),
                    start: e.start,
                    size: e.size,
                    next: i,
                };
            }
        }
    }
}
