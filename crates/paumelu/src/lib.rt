// Paumelu: a GraphQL reader whose every answer is proved. The entries, and the C interface. Nothing is decided here.
#![tactic(auto)]

ghost use Rattle.std.specs.Prelude.{◌≡◌};
ghost use Rattle.grammar.specs.declared.Entry.TheVariants.{Value, Constant, Ty, SelectionSet};
ghost use Rattle.grammar.specs.Answers.{grammar_answer, grammar_items, grammar_events};
ghost use Rattle.paumelu.specs.Interface.{interface_answer, interface_tape};

use codes::{Refusal, refusal};
pub use reader::{Answer, part, read_items};

// Stays: four functions of one shape, which README and docs/PROMISES.md name; `grammar::read` is the one that they share.

// Reads a value that fills the text: its items to one tape, its events to the other.
pub fn read_value(
    text: &[u8],
    limit: usize,
    depth: usize,
    items: &mut [u8],
    events: &mut [u8],
) -> Answer
    ensures answer { result ≡ grammar_answer Value text.now limit depth items.old events.old }
    ensures items { items.new ≡ grammar_items text.now limit depth items.old }
    ensures events { events.new ≡ grammar_events Value text.now limit depth items.old events.old }
{
    grammar::read(grammar::Entry::Value, text, limit, depth, items, events)
}

// Reads a constant value that fills the text: its items to one tape, its events to the other.
pub fn read_constant(
    text: &[u8],
    limit: usize,
    depth: usize,
    items: &mut [u8],
    events: &mut [u8],
) -> Answer
    ensures answer { result ≡ grammar_answer Constant text.now limit depth items.old events.old }
    ensures items { items.new ≡ grammar_items text.now limit depth items.old }
    ensures events { events.new ≡ grammar_events Constant text.now limit depth items.old events.old }
{
    grammar::read(grammar::Entry::Constant, text, limit, depth, items, events)
}

// Reads a type that fills the text: its items to one tape, its events to the other.
pub fn read_type(
    text: &[u8],
    limit: usize,
    depth: usize,
    items: &mut [u8],
    events: &mut [u8],
) -> Answer
    ensures answer { result ≡ grammar_answer Ty text.now limit depth items.old events.old }
    ensures items { items.new ≡ grammar_items text.now limit depth items.old }
    ensures events { events.new ≡ grammar_events Ty text.now limit depth items.old events.old }
{
    grammar::read(grammar::Entry::Ty, text, limit, depth, items, events)
}

// Reads a selection set that fills the text: its items to one tape, its events to the other.
pub fn read_selection_set(
    text: &[u8],
    limit: usize,
    depth: usize,
    items: &mut [u8],
    events: &mut [u8],
) -> Answer
    ensures answer { result ≡ grammar_answer SelectionSet text.now limit depth items.old events.old }
    ensures items { items.new ≡ grammar_items text.now limit depth items.old }
    ensures events { events.new ≡ grammar_events SelectionSet text.now limit depth items.old events.old }
{
    grammar::read(
        grammar::Entry::SelectionSet,
        text,
        limit,
        depth,
        items,
        events,
    )
}

// What C calls, as `paumelu_c` exports it: reads items by the entry code 0. The number is the result; place, items and events are written behind references.
pub fn paumelu_read(
    entry: u64,
    text: &[u8],
    limit: u64,
    tape: &mut [u8],
    place: &mut u64,
    items: &mut u64,
    events: &mut u64,
) -> u64
    ensures number { result ≡ (interface_answer entry text.now limit tape.old).number }
    ensures place { place.new ≡ (interface_answer entry text.now limit tape.old).place }
    ensures items { items.new ≡ (interface_answer entry text.now limit tape.old).items }
    ensures events { events.new ≡ (interface_answer entry text.now limit tape.old).events }
    ensures tape { tape.new ≡ interface_tape entry text.now limit tape.old }
{
    let is_unknown = entry != refusal::READ_ITEMS;
    if is_unknown {
        *place = 0;
        *items = 0;
        *events = 0;
        return Refusal::EntryCode as u64;
    }
    let a = reader::read_items(text, limit as usize, tape);
    *place = a.place as u64;
    *items = a.items as u64;
    *events = a.events as u64;
    a.number as u64
}
