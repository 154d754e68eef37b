// Values and constant values. Items of a list and fields of an object are loops; only depth recurses.
ghost use Rattle.std.specs.Prelude.{◌≡◌, Bool, true, [], ◌∷◌, ℕ, ◌<◌, length};
ghost use Rattle.codes.specs.EventCodes as nodes;
ghost use Rattle.codes.specs.ItemCodes as codes;
ghost use Rattle.codes.specs.KindNumbers.{number_of as kind_number};
ghost use Rattle.rules.specs.Items.{items as items_of};
ghost use Rattle.syntax.specs.Machine.{value as value_due, deeper, fields, close};
ghost use Rattle.parser.specs.declared.token.TokenKind.TheVariants as token_kind;
ghost use Rattle.parser.specs.Kinds.{number_of};
ghost use Rattle.parser.specs.View.{token_of, Front, Seen};
ghost use Rattle.parser.specs.Promise.{Outcome};
ghost use Rattle.values.specs.Scalars.{scalar_node, NodeOf};

use crate::token::colon;
use crate::variable::variable;
use codes::{Kind, Node, Refusal, Refused};
use parser::{Events, Name, Peeked, Reached, TokenKind, Tokens, Word};

// The node of a value that is a token of this kind, if it is one.
fn literal_node(kind: Kind) -> Option<Node>
    ensures { NodeOf (scalar_node (kind_number kind)) result }
{
    match kind {
        Kind::Int => Some(Node::IntValue),
        Kind::Float => Some(Node::FloatValue),
        Kind::StringValue => Some(Node::StringValue),
        _ => None,
    }
}

// The same of a word.
fn word_node(word: Word) -> Option<Node>
    ensures { NodeOf (scalar_node (number_of (token_kind.Word word))) result }
{
    match word {
        Word::True => Some(Node::BooleanValue),
        Word::False => Some(Node::BooleanValue),
        Word::Null => Some(Node::NullValue),
        Word::On => None,
    }
}

// The node of a value that is one token, if it is one.
fn scalar_node(kind: TokenKind) -> Option<Node>
    ensures { NodeOf (scalar_node (number_of kind)) result }
{
    match kind {
        TokenKind::Kind(kind) => literal_node(kind),
        TokenKind::Word(word) => word_node(word),
        TokenKind::Error(_) => None,
    }
}

// A value is due, with so much depth left; only a constant may stand there if `constant`.
#[cycle(values)]
pub fn value(
    tokens: &Tokens,
    constant: bool,
    from: Reached,
    depth: usize,
    events: &mut Events,
) -> Result<Reached, Refused>
    requires { from.next < length (items_of tokens.now.text.now) }
    ensures { Outcome constant tokens.now.text.now (value_due depth ∷ []) [] events.old events.new from result }
{
    let token = tokens.peek(from.next);
    if let Some(node) = scalar_node(token.kind) {
        events.leaf(node, token);
        return Ok(token.reached());
    }
    if token.kind.is_enum() {
        events.named(Node::EnumValue, token);
        return Ok(token.reached());
    }
    let is_list = token.kind.is(Kind::LBracket);
    if is_list {
        return list_value(tokens, constant, token, depth, events);
    }
    let is_object = token.kind.is(Kind::LCurly);
    if is_object {
        return object_value(tokens, constant, token, depth, events);
    }
    let is_variable = token.kind.is(Kind::Dollar);
    if !is_variable {
        return Err(token.refused(Refusal::NoSentence));
    }
    if constant {
        return Err(token.refused(Refusal::DollarInConstant));
    }
    variable(tokens, token, events)
}

// A list value, whose `[` is the token: its items are a loop.
#[cycle(values)]
fn list_value(
    tokens: &Tokens,
    constant: bool,
    token: Peeked,
    depth: usize,
    events: &mut Events,
) -> Result<Reached, Refused>
    requires kind_value { (token_of token).kind ≡ codes.bracket_l }
    requires seen { Seen tokens.now.text.now token }
    ensures { (from : Reached) → Front tokens.now.text.now from.next token → Outcome constant tokens.now.text.now (value_due depth ∷ []) [] events.old events.new from result }
{
    events.open_with(Node::ListValue, token);
    let mut at = token.reached();
    // Stays: a loop beside those of object values, arguments, directives and selections (a rule of the project: siblings are loops). Each has its own
    // end, item, refusals and symbol of the definition; one loop over closures would take all four, and a lent `events` in two of them.
    loop {
        let next = tokens.peek(at.next);
        let ends = next.kind.is(Kind::RBracket);
        if ends {
            events.close_with(Node::ListValue, token, next);
            return Ok(next.reached());
        }
        let is_cut = next.kind.is(Kind::Eof);
        if is_cut {
            return Err(next.refused(Refusal::NoSentence));
        }
        if depth == 0 {
            return Err(next.refused(Refusal::TooDeep));
        }
        at = value(tokens, constant, at, depth - 1, events)?;
    }
}

// An object field's name and its `:`.
fn field_name(tokens: &Tokens, name: Name, events: &mut Events) -> Result<Reached, Refused>
    requires { Seen tokens.now.text.now name.token }
    ensures { (c : Bool) (from : Reached) (depth start : ℕ) → Front tokens.now.text.now from.next name.token → Outcome c tokens.now.text.now (fields depth start ∷ []) (deeper depth ∷ close nodes.object_field name.token.start ∷ fields depth start ∷ []) events.old events.new from result }
{
    events.open(Node::ObjectField, name.token);
    events.leaf(Node::Name, name.token);
    colon(tokens, name.token.reached(), events)
}

// An object field, which begins with its name.
#[cycle(values)]
fn object_field(
    tokens: &Tokens,
    constant: bool,
    name: Name,
    depth: usize,
    events: &mut Events,
) -> Result<Reached, Refused>
    requires { Seen tokens.now.text.now name.token }
    ensures { (from : Reached) (start : ℕ) → Front tokens.now.text.now from.next name.token → Outcome constant tokens.now.text.now (fields depth start ∷ []) (fields depth start ∷ []) events.old events.new from result }
{
    let named = field_name(tokens, name, events)?;
    if depth == 0 {
        let next = tokens.peek(named.next);
        return Err(next.refused(Refusal::TooDeep));
    }
    let held = value(tokens, constant, named, depth - 1, events)?;
    events.close(Node::ObjectField, name.token, held.end);
    Ok(held)
}

// An object value, whose `{` is the token: its fields are a loop.
#[cycle(values)]
fn object_value(
    tokens: &Tokens,
    constant: bool,
    token: Peeked,
    depth: usize,
    events: &mut Events,
) -> Result<Reached, Refused>
    requires kind_value { (token_of token).kind ≡ codes.brace_l }
    requires seen { Seen tokens.now.text.now token }
    ensures { (from : Reached) → Front tokens.now.text.now from.next token → Outcome constant tokens.now.text.now (value_due depth ∷ []) [] events.old events.new from result }
{
    events.open_with(Node::ObjectValue, token);
    let mut at = token.reached();
    // Stays: beside `list_value`'s loop, for the reason there.
    loop {
        let next = tokens.peek(at.next);
        let ends = next.kind.is(Kind::RCurly);
        if ends {
            events.close_with(Node::ObjectValue, token, next);
            return Ok(next.reached());
        }
        let Some(name) = next.name() else {
            return Err(next.refused(Refusal::NoSentence));
        };
        at = object_field(tokens, constant, name, depth, events)?;
    }
}
