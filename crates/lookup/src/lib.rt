// Classes of bytes: they are decided here, and the rest of the lexer asks.
#![tactic(auto)]

ghost use Rattle.std.specs.Prelude.{◌≡◌};
ghost use Rattle.codes.specs.KindNumbers.{number_of};
ghost use Rattle.rules.specs.Classes.{digit, name_start, name_continue};
ghost use Rattle.lookup.specs.Class.{punctuation_of, class_of};

use codes::Kind;

// Stays: one kind for each class, by number as `class_of` has it (docs/PROMISES.md names `class` and `class_unique`): Float for `-`, Eof for none.
// The class of a byte: the kind of the token that can begin with it, but that of a Float for `-`, with which an Int can begin too, and that of
// Eof if none can.
#[tactic(auto, unfolding(crate::specs::Class::class_of))]
pub fn class(b: u8) -> Kind
    ensures { number_of result ≡ class_of b }
{
    match b {
        _ if is_namestart(b) => Kind::Name,
        _ if is_digit(b) => Kind::Int,
        b'\t' | b'\n' | b'\r' | b' ' => Kind::Whitespace,
        b'"' => Kind::StringValue,
        b'#' => Kind::Comment,
        b'-' => Kind::Float,
        b'.' => Kind::Spread,
        _ => punctuator(b),
    }
}

// Stays: Eof where it is none, and no Option, since `class` hands it on as it is.
// The kind of the punctuator that the byte is; that of Eof if it is none.
#[tactic(auto, unfolding(crate::specs::Class::punctuation_of))]
fn punctuator(b: u8) -> Kind
    ensures { number_of result ≡ punctuation_of b }
{
    match b {
        b',' => Kind::Comma,
        b'!' => Kind::Bang,
        b'$' => Kind::Dollar,
        b'&' => Kind::Amp,
        b'(' => Kind::LParen,
        b')' => Kind::RParen,
        b':' => Kind::Colon,
        b'=' => Kind::Eq,
        b'@' => Kind::At,
        b'[' => Kind::LBracket,
        b']' => Kind::RBracket,
        b'{' => Kind::LCurly,
        b'|' => Kind::Pipe,
        b'}' => Kind::RCurly,
        _ => Kind::Eof,
    }
}

#[tactic(auto, unfolding(rules::specs::Classes::name_start, rules::specs::Classes::letter))]
pub fn is_namestart(b: u8) -> bool
    ensures { result ≡ name_start b }
{
    matches!(b, b'a'..=b'z' | b'A'..=b'Z' | b'_')
}

#[tactic(auto, unfolding(rules::specs::Classes::digit))]
pub fn is_digit(b: u8) -> bool
    ensures { result ≡ digit b }
{
    b.is_ascii_digit()
}

#[tactic(auto, unfolding(rules::specs::Classes::name_continue))]
pub fn is_name_continue(b: u8) -> bool
    ensures { result ≡ name_continue b }
{
    is_namestart(b) || is_digit(b)
}
