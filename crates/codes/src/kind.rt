// "Tape entries": the kinds of items that are no errors, by the crate's names. Their numbers are the item codes.
ghost use Rattle.codes.specs.KindNumbers.{Gives, Names};

use crate::UnknownNumber;
use std::fmt;

#[derive(Clone, Copy, Debug, PartialEq, Eq)]
pub enum Kind {
    Eof,
    Whitespace,
    Comment,
    Comma,
    Bang,
    Dollar,
    Amp,
    LParen,
    RParen,
    Spread,
    Colon,
    Eq,
    At,
    LBracket,
    RBracket,
    LCurly,
    Pipe,
    RCurly,
    Name,
    StringValue,
    Int,
    Float,
}

impl From<Kind> for u8 {
    ghost from_gives = { Gives };

    fn from(kind: Kind) -> u8 {
        kind as u8
    }
}

// Stays: a table by hand. No derive gives TryFrom, `rt ci` refuses an impl that a macro writes, and a chain over all of them is no plainer.
impl TryFrom<u8> for Kind {
    type Error = UnknownNumber;

    ghost try_from_gives = { Names };

    fn try_from(number: u8) -> Result<Kind, UnknownNumber> {
        match number {
            0 => Ok(Kind::Eof),
            1 => Ok(Kind::Whitespace),
            2 => Ok(Kind::Comment),
            3 => Ok(Kind::Comma),
            4 => Ok(Kind::Bang),
            5 => Ok(Kind::Dollar),
            6 => Ok(Kind::Amp),
            7 => Ok(Kind::LParen),
            8 => Ok(Kind::RParen),
            9 => Ok(Kind::Spread),
            10 => Ok(Kind::Colon),
            11 => Ok(Kind::Eq),
            12 => Ok(Kind::At),
            13 => Ok(Kind::LBracket),
            14 => Ok(Kind::RBracket),
            15 => Ok(Kind::LCurly),
            16 => Ok(Kind::Pipe),
            17 => Ok(Kind::RCurly),
            18 => Ok(Kind::Name),
            19 => Ok(Kind::StringValue),
            20 => Ok(Kind::Int),
            21 => Ok(Kind::Float),
            _ => Err(UnknownNumber),
        }
    }
}

// A kind by its name, and a punctuator as it is written.
impl fmt::Display for Kind {
    fn fmt<W: fmt::Write>(&self, f: &mut fmt::Formatter<W>) -> fmt::Result {
        f.pad(match self {
            Kind::Eof => "Eof",
            Kind::Whitespace => "Whitespace",
            Kind::Comment => "Comment",
            Kind::Comma => ",",
            Kind::Bang => "!",
            Kind::Dollar => "$",
            Kind::Amp => "&",
            Kind::LParen => "(",
            Kind::RParen => ")",
            Kind::Spread => "Spread",
            Kind::Colon => ":",
            Kind::Eq => "=",
            Kind::At => "@",
            Kind::LBracket => "[",
            Kind::RBracket => "]",
            Kind::LCurly => "{",
            Kind::Pipe => "|",
            Kind::RCurly => "}",
            Kind::Name => "Name",
            Kind::StringValue => "StringValue",
            Kind::Int => "Int",
            Kind::Float => "Float",
        })
    }
}

// "64 + error"
pub const ERROR: u8 = 64;
