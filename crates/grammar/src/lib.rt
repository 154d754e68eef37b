// The grammar's entries: reading items first, then what the entry names, filling the whole text. The events are counted before any is written.
#![tactic(auto)]

ghost use Rattle.std.specs.Prelude.{◌≡◌, ◌≤◌, length};
ghost use Rattle.codes.specs.Refusals.{deepest};
ghost use Rattle.codes.specs.RefusalNumbers.{number_of};
ghost use Rattle.tape.specs.Entry.{room};
ghost use Rattle.rules.specs.Items.{items as items_of};
ghost use Rattle.reader.specs.Answers.{answer};
ghost use Rattle.syntax.specs.Words.{tokens as tokens_of};
ghost use Rattle.grammar.specs.Answers.{read_of, read_answer, counted_events, grammar_answer, grammar_items, grammar_events};
ghost use Rattle.grammar.specs.Promise.{Begins, Parses, IsFirst};

use codes::{Kind, Refusal, Refused, kind, refusal};
use parser::{Events, Reached, Tokens};
use reader::Answer;

// What a text is read as.
#[derive(Clone, Copy)]
pub enum Entry {
    Value,
    Constant,
    Ty,
    SelectionSet,
}

// Reads what the entry names, from the first item on.
// Stays: the bound of the depth in four contracts, as `typerefs::ty` has it, which docs/DECISIONS.md names: a type for it would ask more of its callers.
fn begin(
    entry: Entry,
    tokens: &Tokens,
    depth: usize,
    events: &mut Events,
) -> Result<Reached, Refused>
    requires { depth ≤ deepest }
    ensures same { events.new.tape.ghost_name ≡ events.old.tape.ghost_name }
    ensures begins { Begins (read_of entry depth (tokens_of tokens.now.text.now)) tokens.now.text.now events.old events.new result }
{
    let start = Reached { next: 0, end: 0 };
    match entry {
        Entry::Value => values::value::value(tokens, false, start, depth, events),
        Entry::Constant => values::value::value(tokens, true, start, depth, events),
        Entry::Ty => typerefs::ty::ty(tokens, start, depth, events),
        Entry::SelectionSet => selections::selection_set(tokens, start, depth, events),
    }
}

// Reads what the entry names, and then Eof: how many events it gives, of which those are on the tape that have room.
fn parse(entry: Entry, tokens: &Tokens, depth: usize, tape: &mut [u8]) -> Result<usize, Refused>
    requires { depth ≤ deepest }
    ensures { Parses (read_of entry depth (tokens_of tokens.now.text.now)) tape.old tape.new result }
{
    let mut events = Events::new(tape);
    let reached = begin(entry, tokens, depth, &mut events)?;
    let token = tokens.peek(reached.next);
    let ends = token.kind.is(Kind::Eof);
    if !ends {
        return Err(token.refused(Refusal::NoSentence));
    }
    Ok(events.count)
}

// A refusal, where so many items are on the item tape and no event is on the other.
fn refused(by: Refused, items: usize) -> Answer
    ensures { result ≡ answer (number_of by.refusal) by.place items 0 }
{
    Answer {
        number: usize::from(by.refusal),
        place: by.place,
        items,
        events: 0,
    }
}

// After the items were read without a refusal, and there are `count` of them.
// Stays: the count beside the tape, which has room for more and is lent whole; an `Answer` gives it on.
fn parse_twice(
    entry: Entry,
    tokens: &Tokens,
    count: usize,
    depth: usize,
    events: &mut [u8],
) -> Answer
    requires { depth ≤ deepest }
    ensures answer { result ≡ read_answer (length tokens.now.text.now) count (room events.old) (read_of entry depth (tokens_of tokens.now.text.now)) }
    ensures events { events.new ≡ counted_events events.old (read_of entry depth (tokens_of tokens.now.text.now)) }
{
    match parse(entry, tokens, depth, &mut events[..0]) {
        Err(by) => refused(by, count),
        Ok(needed) if tape::capacity(events) < needed => Answer {
            number: usize::from(Refusal::EventTapeShort),
            place: 0,
            items: count,
            events: needed,
        },
        Ok(_) => Answer {
            number: refusal::DONE,
            place: tokens.text.len(),
            items: count,
            events: parse(entry, tokens, depth, events).unwrap(),
        },
    }
}

// The number of the first error item among the `count` items of the tape, if one is an error.
fn first_error(tokens: &Tokens, count: usize) -> Option<usize>
    requires { count ≡ length (items_of tokens.now.text.now) }
    ensures { IsFirst (items_of tokens.now.text.now) result }
{
    (0..count).find(|&i| tape::get_entry(tokens.items, i).code >= kind::ERROR)
}

// Reads the text as the entry says: items to the item tape, events to the event tape.
pub fn read(
    entry: Entry,
    text: &[u8],
    limit: usize,
    depth: usize,
    items: &mut [u8],
    events: &mut [u8],
) -> Answer
    ensures answer { result ≡ grammar_answer entry text.now limit depth items.old events.old }
    ensures items { items.new ≡ grammar_items text.now limit depth items.old }
    ensures events { events.new ≡ grammar_events entry text.now limit depth items.old events.old }
{
    let past_deepest = depth > refusal::DEEPEST;
    if past_deepest {
        let by = Refused {
            refusal: Refusal::DepthLimit,
            place: 0,
        };
        return refused(by, 0);
    }
    let a = reader::read_items(text, limit, items);
    if a.number != refusal::DONE {
        return a;
    }
    let tokens = Tokens { text, items };
    if let Some(first) = first_error(&tokens, a.items) {
        let e = tape::get_entry(tokens.items, first);
        let by = Refused {
            refusal: Refusal::ErrorItem,
            place: e.start,
        };
        return refused(by, a.items);
    }
    parse_twice(entry, &tokens, a.items, depth, events)
}
