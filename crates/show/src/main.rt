// The program behind the script `paumelu`: it reads standard input with the proved reader and prints what is asked (`asked.rt`).
//
// The script needs to know how the run ended, and this program sets no exit status: so the last thing that it writes is a digit on descriptor 3, where it
// is told to. 0: all was read; 1: there was a refusal or an error item; 2: the text was not read; 3: a part whose span passes the text's end.
#![tactic(auto)]

ghost use Rattle.std.specs.Prelude.{◌<◌, ◌^◌};

mod asked;
mod ended;
mod input;

use asked::{Asked, Entry};
use codes::refusal;
use ended::{Complaint, Ended};
use paumelu::Answer;
use print::Output;

// Descriptors.
const STDOUT: i32 = 1;

const STDERR: i32 = 2;

const STATUS: i32 = 3;

// How long the text's buffer is for the longest texts.
const LARGE: usize = refusal::LONGEST + 1;

// Stays: rt, asked, text, items, events and out one by one, here and below. A struct of them is no plainer: it would be lent for writing whole, where
// rt, asked and text are read beside what is written.

// Writes what is left in the buffer.
fn finish(out: &mut Output, refused: bool) -> Result<Ended, Complaint> {
    out.flush()?;
    Ok(if refused { Ended::Refused } else { Ended::Read })
}

// Reads the text by one of the grammar's entries; by that of a selection set where the entry is none of the others.
fn read(asked: Asked, text: &[u8], items: &mut [u8], events: &mut [u8]) -> Answer {
    let limit = asked.limit;
    let depth = asked.depth;
    match asked.entry {
        Entry::Value => paumelu::read_value(text, limit, depth, items, events),
        Entry::Constant => paumelu::read_constant(text, limit, depth, items, events),
        Entry::Type => paumelu::read_type(text, limit, depth, items, events),
        _ => paumelu::read_selection_set(text, limit, depth, items, events),
    }
}

fn list_items(
    asked: Asked,
    text: &[u8],
    tape: &mut [u8],
    out: &mut Output,
) -> Result<Ended, Complaint> {
    let refused = lists::list_items(asked.style, asked.limit, text, tape, out)?;
    finish(out, refused)
}

fn list_events(
    asked: Asked,
    text: &[u8],
    items: &mut [u8],
    events: &mut [u8],
    out: &mut Output,
) -> Result<Ended, Complaint> {
    let a = read(asked, text, items, events);
    let refused = lists::list_events(asked.style, text, items, events, a, out)?;
    finish(out, refused)
}

// A page is made of any text that the reader takes. Where it takes none, the page says why.
fn make_page(
    rt: &HostRuntime,
    asked: Asked,
    text: &[u8],
    items: &mut [u8],
    tape: &mut [u8],
    out: &mut Output,
) -> Result<Ended, Complaint> {
    let a = read(asked, text, items, tape);
    page::put_page(rt, out, text, items, tape, a)?;
    finish(out, page::is_cut(a.number))
}

fn write_part(asked: Asked, text: &[u8]) -> Result<Ended, Complaint> {
    let part = paumelu::part(text, asked.limit, asked.depth);
    if !io::write_all(STDOUT, part) {
        return Err(Complaint::Unwritten);
    }
    Ok(if part.len() == asked.depth {
        Ended::Read
    } else {
        Ended::Empty
    })
}

// Answers on a text that is read whole.
fn answer(
    rt: &HostRuntime,
    asked: Asked,
    text: &[u8],
    items: &mut [u8],
    events: &mut [u8],
    out: &mut Output,
) -> Result<Ended, Complaint> {
    match asked.entry {
        Entry::Items => list_items(asked, text, items, out),
        Entry::Part => write_part(asked, text),
        Entry::Page => make_page(rt, asked, text, items, events, out),
        _ => list_events(asked, text, items, events, out),
    }
}

// A text that did not fit the small buffers: its start is lent, and the rest is still to be read.
fn read_large<const T: usize, const I: usize, const E: usize>(
    rt: &HostRuntime,
    asked: Asked,
    head: &[u8],
    text: &mut [u8; T],
    items: &mut [u8; I],
    events: &mut [u8; E],
    out: &mut Output,
) -> Result<Ended, Complaint> {
    input::copy(head, text);
    let n = input::read_text(rt, text, head.len())?;
    if n < text.len() {
        return answer(rt, asked, paumelu::part(text, 0, n), items, events, out);
    }
    // the text is longer than the buffer, or as long: the reader refuses it with 2
    match asked.entry {
        Entry::Items => answer(rt, asked, text, items, events, out),
        Entry::Part => Err(Complaint::LongForPart),
        _ => Err(Complaint::Long),
    }
}

// Makes the buffers for a text that did not fit the small ones, of lengths that a slice can have. An array of a million bytes goes to a function for any
// length: the checker does not follow one that is passed as a slice where it is made.
fn go_with<const T: usize, const I: usize, const E: usize>(
    rt: &HostRuntime,
    asked: Asked,
    head: &[u8],
    out: &mut Output,
) -> Result<Ended, Complaint>
    requires { (T < 2 ^ 63) × ((I < 2 ^ 63) × (E < 2 ^ 63)) }
{
    let mut text = [0u8; T];
    let mut items = [0u8; I];
    let mut events = [0u8; E];
    read_large(rt, asked, head, &mut text, &mut items, &mut events, out)
}

// Texts of over 65,536 bytes. A function with a frame of its own: so a run on a short text needs little stack. The recorded run, on a stack of the
// usual size, shows it.
#[inline(never)]
fn go_large(
    rt: &HostRuntime,
    asked: Asked,
    head: &[u8],
    out: &mut Output,
) -> Result<Ended, Complaint> {
    if asked.entry.takes_large() {
        // up to 16,777,216 bytes
        go_with::<{ LARGE }, 8388608, 8>(rt, asked, head, out)
    } else {
        // up to 1,048,576 bytes: eight bytes of item tape and forty of event tape for each byte of the text
        go_with::<1048577, 8388616, 41943040>(rt, asked, head, out)
    }
}

// The start of a text, and all of it where it fits. A long text is not begun where the stack has no room for it.
fn read_small<const T: usize, const I: usize, const E: usize>(
    rt: &HostRuntime,
    asked: Asked,
    text: &mut [u8; T],
    items: &mut [u8; I],
    events: &mut [u8; E],
    out: &mut Output,
) -> Result<Ended, Complaint> {
    let n = input::read_text(rt, text, 0)?;
    if n < text.len() {
        return answer(rt, asked, paumelu::part(text, 0, n), items, events, out);
    }
    if !asked.roomy {
        return Err(Complaint::NoRoom);
    }
    go_large(rt, asked, text, out)
}

// Texts of up to 65,536 bytes, and the start of longer ones.
fn go_small(rt: &HostRuntime, asked: Asked, out: &mut Output) -> Result<Ended, Complaint> {
    let mut text = [0u8; 65537];
    let mut items = [0u8; 524304];
    let mut events = [0u8; 2621440];
    read_small(rt, asked, &mut text, &mut items, &mut events, out)
}

fn go(rt: &HostRuntime, asked: Asked, out: &mut Output) -> Result<Ended, Complaint> {
    if !asked.long {
        return go_small(rt, asked, out);
    }
    if !asked.roomy {
        return Err(Complaint::NoRoomForLong);
    }
    go_large(rt, asked, b"", out)
}

// The digit that tells how the run ended. Where it did not end well there is one clear line on standard error.
fn status(ended: Result<Ended, Complaint>) -> u8 {
    match ended {
        Ok(Ended::Read) => b'0',
        Ok(Ended::Refused) => b'1',
        Ok(Ended::Empty) => b'3',
        Err(complaint) => {
            io::write_all(STDERR, complaint.line().as_bytes());
            b'2'
        }
    }
}

fn main(rt: HostRuntime) {
    let asked = asked::arguments(&rt);
    let mut out = Output::new();
    let status = status(go(&rt, asked, &mut out));
    if asked.tells {
        io::write_all(STATUS, &[status]);
    }
}
