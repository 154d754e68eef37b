// Reads cases from standard input to its end and writes an answer for each to standard output. All numbers are big-endian.
//
// A case: 1 byte entry (0 items, 1 value, 2 constant value, 3 type, 4 selection set, 5 part, 6 C interface), 8 bytes token limit (part: start),
// 8 bytes depth limit (part: length; C interface: the entry code), 4 bytes length of the item tape, 4 bytes length of the event tape,
// 4 bytes length of the text, the text.
// An answer: number, place, item count and event count, 8 bytes each, then all bytes of both tapes, which hold A5 before the call. A part:
// 8 bytes length, then the bytes.
#![tactic(auto)]

use paumelu::Answer;

const STDIN: i32 = 0;

const STDOUT: i32 = 1;

const STDERR: i32 = 2;

// How many bytes a case has before its text.
const HEAD: usize = 29;

// What each byte of a tape, and of the C interface's outputs, is before a call.
const BEFORE: u8 = 0xA5;

// Stays: beside `show`'s and the grammar's. Each program takes entries that the other has not (the C interface; a page), by numbers of its own.
#[derive(Clone, Copy, Debug, PartialEq, Eq)]
enum Entry {
    Items,
    Value,
    Constant,
    Type,
    Selection,
    Part,
    Interface,
}

impl TryFrom<u8> for Entry {
    type Error = Stop;

    fn try_from(number: u8) -> Result<Entry, Stop> {
        match number {
            0 => Ok(Entry::Items),
            1 => Ok(Entry::Value),
            2 => Ok(Entry::Constant),
            3 => Ok(Entry::Type),
            4 => Ok(Entry::Selection),
            5 => Ok(Entry::Part),
            6 => Ok(Entry::Interface),
            _ => Err(Stop::UnknownEntry),
        }
    }
}

// Why the run ends before its input does.
#[derive(Clone, Copy, Debug, PartialEq, Eq)]
enum Stop {
    Unwritten,
    CutShort,
    LongText,
    LongItemTape,
    LongEventTape,
    UnknownEntry,
}

impl Stop {
    // One clear line on standard error, if a case is refused.
    // Stays: beside Display. It is no plainer: nothing is formatted, and standard error has no `fmt::Write` here.
    fn line(self) -> &'static str {
        match self {
            Stop::Unwritten => "",
            Stop::CutShort => "replay: a case is cut short\n",
            Stop::LongText => "replay: a text of over 1,048,577 bytes\n",
            Stop::LongItemTape => "replay: an item tape of over 2,097,152 bytes\n",
            Stop::LongEventTape => "replay: an event tape of over 2,097,152 bytes\n",
            Stop::UnknownEntry => "replay: an unknown entry\n",
        }
    }
}

// A case, but for its text.
// Stays: numbers whose meaning the entry gives, as the cases hold them (what may not change): the fields are the same for all, and an unknown entry is
// refused after a text that is cut short.
#[derive(Clone, Copy, Debug)]
struct Case {
    entry: u8,
    limit: u64,
    depth: u64,
    item_bytes: usize,
    event_bytes: usize,
    text_bytes: usize,
}

// The case that these bytes begin, unless they are too few.
fn parse(bytes: &[u8]) -> Option<Case> {
    let (entry, bytes) = bytes.split_first()?;
    let (limit, bytes) = bytes.split_first_chunk()?;
    let (depth, bytes) = bytes.split_first_chunk()?;
    let (items, bytes) = bytes.split_first_chunk()?;
    let (events, bytes) = bytes.split_first_chunk()?;
    let (text, _) = bytes.split_first_chunk()?;
    Some(Case {
        entry: *entry,
        limit: u64::from_be_bytes(*limit),
        depth: u64::from_be_bytes(*depth),
        item_bytes: u32::from_be_bytes(*items) as usize,
        event_bytes: u32::from_be_bytes(*events) as usize,
        text_bytes: u32::from_be_bytes(*text) as usize,
    })
}

fn write(bytes: &[u8]) -> Result<(), Stop> {
    if io::write_all(STDOUT, bytes) {
        Ok(())
    } else {
        Err(Stop::Unwritten)
    }
}

// Writes an answer and both tapes.
fn write_answer(a: Answer, items: &[u8], events: &[u8]) -> Result<(), Stop> {
    let numbers = [a.number, a.place, a.items, a.events].map(|n| (n as u64).to_be_bytes());
    write(numbers.as_flattened())?;
    write(items)?;
    write(events)
}

fn write_part(text: &[u8], start: u64, length: u64) -> Result<(), Stop> {
    let part = paumelu::part(text, start as usize, length as usize);
    write(&(part.len() as u64).to_be_bytes())?;
    write(part)
}

// Reads as C does, by the call that `paumelu_c` exports.
fn read_by_interface(entry: u64, text: &[u8], limit: u64, items: &mut [u8]) -> Answer {
    let before = u64::from_be_bytes([BEFORE; 8]);
    let mut place = before;
    let mut count = before;
    let mut events = before;
    let number = paumelu::paumelu_read(
        entry,
        text,
        limit,
        items,
        &mut place,
        &mut count,
        &mut events,
    );
    Answer {
        number: number as usize,
        place: place as usize,
        items: count as usize,
        events: events as usize,
    }
}

// Answers one case whose tapes are lent at their lengths.
fn answer(case: Case, text: &[u8], items: &mut [u8], events: &mut [u8]) -> Result<(), Stop> {
    let limit = case.limit as usize;
    let depth = case.depth as usize;
    let entry = Entry::try_from(case.entry)?;
    items.fill(BEFORE);
    events.fill(BEFORE);
    let a = match entry {
        Entry::Part => return write_part(text, case.limit, case.depth),
        Entry::Items => paumelu::read_items(text, limit, items),
        Entry::Value => paumelu::read_value(text, limit, depth, items, events),
        Entry::Constant => paumelu::read_constant(text, limit, depth, items, events),
        Entry::Type => paumelu::read_type(text, limit, depth, items, events),
        Entry::Selection => paumelu::read_selection_set(text, limit, depth, items, events),
        Entry::Interface => read_by_interface(case.depth, text, case.limit, items),
    };
    write_answer(a, items, events)
}

// The next case, but for its text, if the input has one.
fn next_case() -> Result<Option<Case>, Stop> {
    let mut head = [0u8; HEAD];
    let got = io::read_full(STDIN, &mut head);
    if got == 0 {
        return Ok(None);
    }
    let case = parse(&head[..got]).ok_or(Stop::CutShort)?;
    Ok(Some(case))
}

// Reads a case's text, and answers it.
fn one_case(case: Case, text: &mut [u8], items: &mut [u8], events: &mut [u8]) -> Result<(), Stop> {
    let text = text.get_mut(..case.text_bytes).ok_or(Stop::LongText)?;
    let items = items.get_mut(..case.item_bytes).ok_or(Stop::LongItemTape)?;
    let events = events
        .get_mut(..case.event_bytes)
        .ok_or(Stop::LongEventTape)?;
    if io::read_full(STDIN, text) < case.text_bytes {
        return Err(Stop::CutShort);
    }
    answer(case, text, items, events)
}

// Nothing says that the input ends: the count is one that no run uses up. The arrays' lengths are any: the checker does not follow an array of a million
// bytes that is passed as a slice where it is made.
fn all_cases<const T: usize, const I: usize, const E: usize>(
    text: &mut [u8; T],
    items: &mut [u8; I],
    events: &mut [u8; E],
) -> Result<(), Stop> {
    for _ in 0..u64::MAX {
        let Some(case) = next_case()? else {
            break;
        };
        one_case(case, text, items, events)?;
    }
    Ok(())
}

fn main() {
    let mut text = [0u8; 1048577];
    let mut items = [0u8; 2097152];
    let mut events = [0u8; 2097152];
    if let Err(stop) = all_cases(&mut text, &mut items, &mut events) {
        io::write_all(STDERR, stop.line().as_bytes());
    }
}
