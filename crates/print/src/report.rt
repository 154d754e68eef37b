// Refusals and error items, in words, with their place and a caret under it.
ghost use Rattle.std.specs.Prelude.{◌≡◌};
ghost use Rattle.base.specs.Text.{from};
ghost use Rattle.codes.specs.Refusals.{not_utf8, no_sentence};

use crate::colour::Colour;
use crate::lines::{Spot, forward, put_caret};
use crate::names::ErrorCode;
use crate::output::Output;
use codes::{Refusal, fault, refusal};
use std::fmt;
use std::fmt::Write;

// An error item that starts at the spot, without its line.
// Stays: `colour` beside `out`, here and below. A struct of both is no plainer: pages share these functions, and `Output` too, and have no colours.
pub fn put_error_item(
    out: &mut Output,
    colour: bool,
    error: u8,
    spot: Spot,
    end: usize,
) -> fmt::Result {
    let red = Colour::Red.if_wanted(colour);
    let plain = Colour::Plain.if_wanted(colour);
    let words = ErrorCode(error);
    write!(
        out,
        "{red}error {error}{plain} at bytes {} to {end}, line {}, column {}: {words}",
        spot.byte, spot.line, spot.column
    )
}

// Stays: the refusal by its number, as `reader::Answer` has it, where 0 is none. What may not change: the clause `number` of `Refused::new`.
// A refusal of a text, by its number: where, and the error of the first error item, if there is one.
#[derive(Clone, Copy, Debug)]
pub struct Refused<'a> {
    pub text: &'a [u8],
    pub number: usize,
    pub spot: Spot,
    pub first: Option<u8>,
}

// Refusals 1, 2 and 10 have no place in the text.
fn has_place(number: usize) -> bool
    ensures { result ≡ from not_utf8 no_sentence number }
{
    (Refusal::NotUtf8 as usize..=Refusal::NoSentence as usize).contains(&number)
}

// A refusal in words. The end of the text has words of its own for number 9.
impl<'a> fmt::Display for Refused<'a> {
    fn fmt<W: fmt::Write>(&self, f: &mut fmt::Formatter<W>) -> fmt::Result {
        match Refusal::try_from(self.number) {
            Ok(Refusal::ErrorItem) => {
                let error = fault::number_or_none(self.first);
                write!(f, "error item {error}, {}", ErrorCode(error))
            }
            Ok(Refusal::NoSentence) if self.spot.byte == self.text.len() => {
                f.write_str("no sentence can end here")
            }
            Ok(refusal) => write!(f, "{refusal}"),
            Err(_) if self.number == refusal::DONE => f.write_str("no refusal"),
            Err(_) => f.write_str("no sentence can end here"),
        }
    }
}

impl<'a> Refused<'a> {
    pub fn new(text: &'a [u8], number: usize, place: usize, first: Option<u8>) -> Self
        ensures number { result.number ≡ number }
        ensures place { result.spot.byte ≡ place }
        ensures first { result.first ≡ first }
    {
        Refused {
            text,
            number,
            spot: forward(text, Spot::new(), place),
            first,
        }
    }

    // Without its line.
    pub fn put(self, out: &mut Output, colour: bool) -> fmt::Result {
        let number = self.number;
        let red = Colour::Red.if_wanted(colour);
        let plain = Colour::Plain.if_wanted(colour);
        write!(out, "{red}refusal {number}{plain}")?;
        if has_place(number) {
            write!(
                out,
                " at byte {}, line {}, column {}",
                self.spot.byte, self.spot.line, self.spot.column
            )?;
        }
        write!(out, ": {self}")
    }

    // With its line.
    pub fn put_report(self, out: &mut Output, colour: bool) -> fmt::Result {
        self.put(out, colour)?;
        out.write_str("\n")?;
        if has_place(self.number) {
            put_caret(out, self.text, self.spot)?;
        }
        Ok(())
    }
}
