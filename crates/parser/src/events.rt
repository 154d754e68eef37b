// An event tape: events one after the other, as far as there is room, and how many there were.
ghost use Rattle.std.specs.Prelude.{◌≡◌, ◌+◌, ◌-◌, ◌^◌, ◌≤◌, ◌<◌, leb, [], ◌∷◌, ◌++◌};
ghost use Rattle.base.specs.Text.{pick};
ghost use Rattle.base.specs.Item.{item};
ghost use Rattle.codes.specs.NodeNumbers.{number_of as node_number};
ghost use Rattle.codes.specs.EventCodes as nodes;
ghost use Rattle.syntax.specs.Token.{plain, word_true, token_event, opens, closes, leaf, name_events, end_of};
ghost use Rattle.parser.specs.Kinds.{number_of};
ghost use Rattle.parser.specs.View.{token_of};
ghost use Rattle.parser.specs.Events.{store, most, Wrote};

use crate::token::{Peeked, TokenKind};
use codes::{Kind, Node, node};

// Stays: a count beside the tape. It counts on where the tape is full, since refusal 10 gives how many events there are (`counted`, `Parses`).
#[derive(Drop)]
pub struct Events<'a> {
    pub tape: &'a mut [u8],
    pub count: usize,
}

// The item code of a token.
fn code_of(kind: TokenKind) -> u8
    ensures { result ≡ pick (leb word_true (number_of kind)) plain (number_of kind) }
{
    match kind {
        TokenKind::Kind(kind) => kind as u8,
        // no error item is ever put out
        TokenKind::Word(_) | TokenKind::Error(_) => Kind::Name as u8,
    }
}

// Where the count stays: no text has so many events.
const MOST: usize = 0x1_0000_0000;

// One more, but no more than there can be.
fn counted(count: usize) -> usize
    ensures more { count < most → result ≡ count + 1 }
    ensures stays { most ≤ count → result ≡ count }
{
    if count < MOST { count + 1 } else { count }
}

// Writes an event as entry number i, if there is room.
// Stays: code, start and size one by one, as `tape::put_entry` takes them, which docs/PROMISES.md names and whose requires bound them.
fn write(tape: &mut [u8], i: usize, code: u8, start: usize, size: usize)
    requires start_bound { start < 2 ^ 28 }
    requires size_bound { size < 2 ^ 28 }
    ensures { tape.new ≡ store tape.old i (item code start size) }
{
    let is_full = tape::capacity(tape) <= i;
    if is_full {
        return;
    }
    tape::put_entry(tape, i, code, start, size);
}

impl<'a> Events<'a> {
    // None yet.
    pub fn new(tape: &'a mut [u8]) -> Events<'a>
        ensures same { result.tape.ghost_name ≡ tape.entry.ghost_name }
        ensures tape { result.tape.now ≡ tape.old }
        ensures none { result.count ≡ 0 }
    {
        Events { tape, count: 0 }
    }

    // Writes one event, if there is room, and counts it.
    pub fn put(&mut self, code: u8, start: usize, size: usize)
        requires start_bound { start < 2 ^ 28 }
        requires size_bound { size < 2 ^ 28 }
        ensures { Wrote self.old self.new (item code start size ∷ []) }
    {
        write(self.tape, self.count, code, start, size);
        self.count = counted(self.count);
    }

    // A node opens, whose first token is given.
    pub fn open(&mut self, node: Node, first: Peeked)
        ensures { Wrote self.old self.new (opens (node_number node) first.start ∷ []) }
    {
        self.put(node as u8, first.start, 0);
    }

    // A node closes, whose first token is given, where the last one ended.
    pub fn close(&mut self, node: Node, first: Peeked, end: usize)
        requires { end < 2 ^ 28 }
        ensures { Wrote self.old self.new (closes (node_number node) first.start end ∷ []) }
    {
        let start = first.start;
        self.put(node::CLOSES + node as u8, start, end.saturating_sub(start));
    }

    // A token's event.
    pub fn token(&mut self, token: Peeked)
        ensures { Wrote self.old self.new (token_event (token_of token) ∷ []) }
    {
        self.put(node::TOKEN + code_of(token.kind), token.start, token.size);
    }

    // A node opens and holds its first token.
    pub fn open_with(&mut self, node: Node, token: Peeked)
        ensures { Wrote self.old self.new (opens (node_number node) token.start ∷ token_event (token_of token) ∷ []) }
    {
        self.open(node, token);
        self.token(token);
    }

    // The last token of a node, whose first is given, and the node closes.
    pub fn close_with(&mut self, node: Node, first: Peeked, last: Peeked)
        ensures { Wrote self.old self.new (token_event (token_of last) ∷ closes (node_number node) first.start (end_of (token_of last)) ∷ []) }
    {
        self.token(last);
        self.close(node, first, last.end());
    }

    // A node around one token.
    pub fn leaf(&mut self, node: Node, token: Peeked)
        ensures { Wrote self.old self.new (leaf (node_number node) (token_of token)) }
    {
        self.open(node, token);
        self.close_with(node, token, token);
    }

    // A node around a NAME.
    pub fn named(&mut self, node: Node, token: Peeked)
        ensures { Wrote self.old self.new (opens (node_number node) token.start ∷ (name_events (token_of token) ++ (closes (node_number node) token.start (end_of (token_of token)) ∷ []))) }
    {
        self.open(node, token);
        self.leaf(Node::Name, token);
        self.close(node, token, token.end());
    }
}
