// The list of a text's events: what the grammar finds, indented by nesting.
ghost use Rattle.std.specs.Prelude.{◌≡◌, not, eqb, MatchResult};
ghost use Rattle.codes.specs.Refusals.{done};

use crate::row::{Form, List, Style, colour_of, put_word};
use codes::{node, refusal};
use print::{Colour, EventCode, Output, Refused, entry_at, first_error, less, sum};
use reader::Answer;
use std::fmt;
use std::fmt::Write;
use tape::Entry;

// The colour of an event: nodes have that of names.
fn event_colour(code: u8) -> Colour {
    if code < node::TOKEN {
        Colour::Bold
    } else {
        colour_of(code - node::TOKEN)
    }
}

// How many nodes are open after an event.
fn opened(open: usize, code: u8) -> usize {
    match code {
        ..node::CLOSES => sum(open, 1),
        ..node::TOKEN => less(open, 1),
        _ => open,
    }
}

impl<'a> List<'a> {
    // The numbers stand in columns as far as some twelve nodes are open.
    fn put_described(self, out: &mut Output, open: usize, code: u8) -> fmt::Result {
        let indent = sum(open, open);
        let rest = less(24, indent);
        let on = event_colour(code).if_wanted(self.style.colour);
        let off = Colour::Plain.if_wanted(self.style.colour);
        write!(
            out,
            "{:indent$}{on}{}{off}{:rest$}",
            "",
            EventCode(code),
            ""
        )
    }

    fn put_event(self, out: &mut Output, index: usize, open: usize, e: Entry) -> fmt::Result {
        let width = sum(self.width, 1);
        write!(out, "{index:width$}  ")?;
        self.put_described(out, open, e.code)?;
        self.put_span(out, e)?;
        self.put_covered(out, e)?;
        out.write_str("\n")
    }

    // The rows of the tape's first `count` events.
    fn put_events(self, out: &mut Output, tape: &[u8], count: usize) -> fmt::Result {
        let mut open = 0;
        for i in 0..count {
            let e = entry_at(tape, i);
            let next = opened(open, e.code);
            match self.style.form {
                Form::Word => put_word(out, e)?,
                // a node's closing stands where its opening does
                Form::Row => self.put_event(out, i + 1, open.min(next), e)?,
            }
            open = next;
        }
        Ok(())
    }
}

// A list that was not written whole, and whether it told of a refusal.
#[derive(Clone, Copy, Debug, PartialEq, Eq)]
pub struct Unwritten {
    pub refused: bool,
}

// Lists the events that the answer tells of, or its refusal. Says whether there was one.
pub fn list_events(
    style: Style,
    text: &[u8],
    items: &[u8],
    events: &[u8],
    answer: Answer,
    out: &mut Output,
) -> Result<bool, Unwritten>
    ensures { MatchResult result (λ refused. refused ≡ not (eqb answer.number done)) (λ e. e.refused ≡ not (eqb answer.number done)) }
{
    if answer.number == refusal::DONE {
        return match List::new(style, text).put_events(out, events, answer.events) {
            Ok(_) => Ok(false),
            Err(_) => Err(Unwritten { refused: false }),
        };
    }
    let first = first_error(items, answer.items);
    match Refused::new(text, answer.number, answer.place, first).put_report(out, style.colour) {
        Ok(_) => Ok(true),
        Err(_) => Err(Unwritten { refused: true }),
    }
}
