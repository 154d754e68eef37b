// "Errors and what they cover".
ghost use Rattle.std.specs.Prelude.{◌≡◌, MatchOption};
ghost use Rattle.codes.specs.Errors as numbers;
ghost use Rattle.codes.specs.FaultNumbers.{Gives, Names};

use crate::UnknownNumber;
use std::fmt;

#[derive(Clone, Copy, Debug, PartialEq, Eq)]
pub enum Fault {
    UnexpectedCharacter = 1,
    SecondDigit,
    IntegerSuffix,
    NoFractionDigit,
    FloatSuffix,
    NoExponent,
    NoDigitAfterSign,
    MinusWithoutDigit,
    EndsInsideFloat,
    BadSpread,
    LoneQuote,
    UnterminatedString,
    LineTerminator,
    BadEscape,
    NonHex,
    QuoteInsideEscape,
    UnpairedSurrogate,
    BadBracedEscape,
}

impl From<Fault> for u8 {
    ghost from_gives = { Gives };

    fn from(fault: Fault) -> u8 {
        fault as u8
    }
}

// Stays: a table by hand. No derive gives TryFrom, `rt ci` refuses an impl that a macro writes, and a chain over all of them is no plainer.
impl TryFrom<u8> for Fault {
    type Error = UnknownNumber;

    ghost try_from_gives = { Names };

    fn try_from(number: u8) -> Result<Fault, UnknownNumber> {
        match number {
            1 => Ok(Fault::UnexpectedCharacter),
            2 => Ok(Fault::SecondDigit),
            3 => Ok(Fault::IntegerSuffix),
            4 => Ok(Fault::NoFractionDigit),
            5 => Ok(Fault::FloatSuffix),
            6 => Ok(Fault::NoExponent),
            7 => Ok(Fault::NoDigitAfterSign),
            8 => Ok(Fault::MinusWithoutDigit),
            9 => Ok(Fault::EndsInsideFloat),
            10 => Ok(Fault::BadSpread),
            11 => Ok(Fault::LoneQuote),
            12 => Ok(Fault::UnterminatedString),
            13 => Ok(Fault::LineTerminator),
            14 => Ok(Fault::BadEscape),
            15 => Ok(Fault::NonHex),
            16 => Ok(Fault::QuoteInsideEscape),
            17 => Ok(Fault::UnpairedSurrogate),
            18 => Ok(Fault::BadBracedEscape),
            _ => Err(UnknownNumber),
        }
    }
}

// An error in words.
impl fmt::Display for Fault {
    fn fmt<W: fmt::Write>(&self, f: &mut fmt::Formatter<W>) -> fmt::Result {
        f.pad(match self {
            Fault::UnexpectedCharacter => "an unexpected character",
            Fault::SecondDigit => "a second digit after a leading zero",
            Fault::IntegerSuffix => "a suffix on an integer",
            Fault::NoFractionDigit => "no digit after the point",
            Fault::FloatSuffix => "a point or a letter after a float",
            Fault::NoExponent => "neither a digit nor a sign in the exponent",
            Fault::NoDigitAfterSign => "no digit after the exponent's sign",
            Fault::MinusWithoutDigit => "a minus sign without a digit",
            Fault::EndsInsideFloat => "the text ends inside a float",
            Fault::BadSpread => "a bad spread: it has three dots",
            Fault::LoneQuote => "a lone quote at the end",
            Fault::UnterminatedString => "a string that is not closed",
            Fault::LineTerminator => "a line end in a quoted string",
            Fault::BadEscape => "a bad escape",
            Fault::NonHex => "a character that is no hex digit in a \\u",
            Fault::QuoteInsideEscape => "a quote inside a \\u",
            Fault::UnpairedSurrogate => "an unpaired surrogate",
            Fault::BadBracedEscape => "a braced escape without digits, or of no scalar value",
        })
    }
}

// No error.
pub const NONE: u8 = 0;

// The number of an error, where there is one; else that of none.
pub fn number_or_none(error: Option<u8>) -> u8
    ensures { MatchOption error (result ≡ numbers.none) (λ n. result ≡ n) }
{
    error.unwrap_or(NONE)
}
