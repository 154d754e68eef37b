// A token, and how far reading has come.
ghost use Rattle.std.specs.Prelude.{◌≡◌, ◌+◌, ◌^◌, ◌<◌, true, false, eqb, IfSome, IsNone};
ghost use Rattle.codes.specs.KindNumbers.{number_of as kind_number};
ghost use Rattle.syntax.specs.Token.{word_on, is_name, is_enum};
ghost use Rattle.parser.specs.Kinds.{number_of};

use codes::{Fault, Kind, Refusal, Refused};

// A word that the grammar knows.
#[derive(Clone, Copy, Debug, PartialEq, Eq)]
pub enum Word {
    True,
    False,
    Null,
    On,
}

// What a token is: its item's kind, but a Name that is one of the four words is that word; or an error item.
#[derive(Clone, Copy, Debug, PartialEq, Eq)]
pub enum TokenKind {
    Kind(Kind),
    Word(Word),
    Error(Fault),
}

// Stays: `Seen`, `Front` and `Ready` stand in contracts, since they tie a token or a place to the tape that is read: a ghost field sees its own
// struct alone, and a token that held its tape again would be no plainer.

// A token: its kind, its first byte, its size, and the item number after it.
#[derive(Clone, Copy)]
pub struct Peeked {
    pub kind: TokenKind,
    pub start: usize,
    pub size: usize,
    pub next: usize,
    ghost narrow: { start + size < 2 ^ 28 },
}

// A token that is a Name, whatever its word.
#[derive(Clone, Copy)]
pub struct Name {
    pub token: Peeked,
    ghost is: { is_name (number_of token.kind) ≡ true },
}

// How far reading has come: the item number after the last token, and the byte where that token ended.
#[derive(Clone, Copy, Debug, PartialEq, Eq)]
pub struct Reached {
    pub next: usize,
    pub end: usize,
}

impl TokenKind {
    // Is it this kind?
    pub fn is(self, kind: Kind) -> bool
        ensures { result ≡ eqb (number_of self) (kind_number kind) }
    {
        self == TokenKind::Kind(kind)
    }

    // Is it a Name, whatever its word?
    pub fn is_name(self) -> bool
        ensures { result ≡ is_name (number_of self) }
    {
        match self {
            TokenKind::Word(_) => true,
            _ => self.is(Kind::Name),
        }
    }

    // Is it the word `on`?
    pub fn is_on(self) -> bool
        ensures { result ≡ eqb (number_of self) word_on }
    {
        self == TokenKind::Word(Word::On)
    }

    // Is it a Name that an EnumValue may be?
    pub fn is_enum(self) -> bool
        ensures { result ≡ is_enum (number_of self) }
    {
        match self {
            TokenKind::Word(word) => word == Word::On,
            _ => self.is(Kind::Name),
        }
    }
}

impl Peeked {
    // The Name that it is, if it is one.
    pub fn name(self) -> Option<Name>
        ensures some { IfSome result (λ name. name.token ≡ self) }
        ensures none { IsNone result → is_name (number_of self.kind) ≡ false }
    {
        if self.kind.is_name() {
            Some(Name { token: self })
        } else {
            None
        }
    }

    // The byte after its last.
    pub fn end(self) -> usize
        ensures { result ≡ self.start + self.size }
    {
        self.start + self.size
    }

    // It was read.
    pub fn reached(self) -> Reached
        ensures next { result.next ≡ self.next }
        ensures end { result.end ≡ self.start + self.size }
    {
        Reached {
            next: self.next,
            end: self.end(),
        }
    }

    // It is refused.
    pub fn refused(self, refusal: Refusal) -> Refused
        ensures refusal { result.refusal ≡ refusal }
        ensures place { result.place ≡ self.start }
    {
        Refused {
            refusal,
            place: self.start,
        }
    }
}
