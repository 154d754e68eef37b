// Types: a name, a list of a type, and a `!` after either.
ghost use Rattle.std.specs.Prelude.{◌≡◌, Bool, [], ◌∷◌, ℕ, ◌≤◌, ◌<◌, length};
ghost use Rattle.base.specs.Text.{pick};
ghost use Rattle.codes.specs.Refusals.{deepest};
ghost use Rattle.codes.specs.EventCodes as nodes;
ghost use Rattle.rules.specs.Items.{items as items_of};
ghost use Rattle.syntax.specs.Token.{opens};
ghost use Rattle.syntax.specs.Machine.{named_type};
ghost use Rattle.syntax.specs.TypeReading.{type_at};
ghost use Rattle.parser.specs.View.{Front, Seen, rest};
ghost use Rattle.parser.specs.Events.{Wrote};
ghost use Rattle.parser.specs.Promise.{Outcome};
ghost use Rattle.typerefs.specs.Promise.{TypeOutcome};
ghost use Rattle.typerefs.specs.Walk.{base_at, Below, Noted, Marked, Walked, Closed, Ended};

use codes::{Kind, Node, Refusal, Refused, refusal};
use parser::{Events, Peeked, Reached, Tokens};

// A named type is due.
pub fn named_type(tokens: &Tokens, from: Reached, events: &mut Events) -> Result<Reached, Refused>
    requires { from.next < length (items_of tokens.now.text.now) }
    ensures { (c : Bool) → Outcome c tokens.now.text.now (named_type ∷ []) [] events.old events.new from result }
{
    let token = tokens.peek(from.next);
    if !token.kind.is_name() {
        return Err(token.refused(Refusal::NoSentence));
    }
    events.named(Node::NamedType, token);
    Ok(token.reached())
}

// Whether a `!` follows the type with so much depth left is noted.
// Stays: the depth beside the notes, since the definition `type_at` counts by it too. A slice that is shorter by one at each level would hold it, and
// would be cut and put together again at each call: no plainer.
fn note(bangs: &mut [bool], depth: usize, follows: bool)
    requires { depth < length bangs.old }
    ensures { Marked bangs.old bangs.new depth follows }
{
    bangs[depth] = follows;
}

// A NON_NULL_TYPE opens if a `!` is to follow.
fn open_noted(follows: bool, first: Peeked, events: &mut Events)
    ensures { Wrote events.old events.new (pick follows (opens nodes.non_null_type first.start ∷ []) []) }
{
    if follows {
        events.open(Node::NonNullType, first);
    }
}

// The `]` of a list type that began at the token `first` is due.
fn end_list(
    tokens: &Tokens,
    first: Peeked,
    from: Reached,
    events: &mut Events,
) -> Result<Reached, Refused>
    requires { from.next < length (items_of tokens.now.text.now) }
    ensures { Closed tokens.now.text.now first.start from.next events.old events.new result }
{
    let token = tokens.peek(from.next);
    let ends = token.kind.is(Kind::RBracket);
    if !ends {
        return Err(token.refused(Refusal::NoSentence));
    }
    events.close_with(Node::ListType, first, token);
    Ok(token.reached())
}

// A `!` may follow the type that began at the token `first`: it is the token, if it is one.
fn end_type(
    tokens: &Tokens,
    first: Peeked,
    token: Peeked,
    from: Reached,
    events: &mut Events,
) -> Reached
    requires { Front tokens.now.text.now from.next token }
    ensures { Ended tokens.now.text.now first.start from events.old events.new result }
{
    let follows = token.kind.is(Kind::Bang);
    if !follows {
        return from;
    }
    events.close_with(Node::NonNullType, first, token);
    token.reached()
}

// A list type with no depth left is refused at the token after its `[`, whatever this is.
fn too_deep(next: Peeked) -> Refused
    ensures refusal { result.refusal ≡ Refusal.TooDeep }
    ensures place { result.place ≡ next.start }
{
    next.refused(Refusal::TooDeep)
}

// A type but for its `!`, whose first token is given, with so much depth left: whether a `!` follows its item types is noted, and its events are
// those that the notes say.
#[cycle(types)]
fn base_type(
    tokens: &Tokens,
    token: Peeked,
    depth: usize,
    bangs: &mut [bool],
    events: &mut Events,
) -> Result<Reached, Refused>
    requires seen { Seen tokens.now.text.now token }
    requires depth_in_bounds { depth < length bangs.old }
    ensures { (at : ℕ) → Front tokens.now.text.now at token → Walked tokens.now.text.now (base_at depth (rest tokens.now.text.now at)) (Below bangs.old depth (rest tokens.now.text.now at)) (Below bangs.new depth (rest tokens.now.text.now at)) events.old events.new result }
{
    if token.kind.is_name() {
        events.named(Node::NamedType, token);
        return Ok(token.reached());
    }
    let is_list = token.kind.is(Kind::LBracket);
    if !is_list {
        return Err(token.refused(Refusal::NoSentence));
    }
    if depth == 0 {
        return Err(too_deep(tokens.peek(token.next)));
    }
    events.open_with(Node::ListType, token);
    let item = walk(tokens, token.next, depth - 1, bangs, events)?;
    end_list(tokens, token, item, events)
}

// A type, with so much depth left: whether a `!` follows it is noted, and its events are those that the notes say.
#[cycle(types)]
fn walk(
    tokens: &Tokens,
    at: usize,
    depth: usize,
    bangs: &mut [bool],
    events: &mut Events,
) -> Result<Reached, Refused>
    requires at_in_bounds { at < length (items_of tokens.now.text.now) }
    requires depth_in_bounds { depth < length bangs.old }
    ensures { Walked tokens.now.text.now (type_at depth (rest tokens.now.text.now at)) (Noted bangs.old depth (rest tokens.now.text.now at)) (Noted bangs.new depth (rest tokens.now.text.now at)) events.old events.new result }
{
    let token = tokens.peek(at);
    open_noted(bangs[depth], token, events);
    let base = base_type(tokens, token, depth, bangs, events)?;
    let next = tokens.peek(base.next);
    note(bangs, depth, next.kind.is(Kind::Bang));
    Ok(end_type(tokens, token, next, base, events))
}

// A type is due, with so much depth left. A first walk, which writes nothing, notes where a `!` follows; the second writes by the notes.
pub fn ty(
    tokens: &Tokens,
    from: Reached,
    depth: usize,
    events: &mut Events,
) -> Result<Reached, Refused>
    requires next_in_bounds { from.next < length (items_of tokens.now.text.now) }
    requires depth_le_deepest { depth ≤ deepest }
    ensures { TypeOutcome tokens.now.text.now depth from.next events.old events.new result }
{
    let mut bangs = [false; refusal::DEEPEST + 1];
    let mut none = [0u8; 0];
    let mut nowhere = Events::new(&mut none);
    walk(tokens, from.next, depth, &mut bangs, &mut nowhere)?;
    walk(tokens, from.next, depth, &mut bangs, events)
}
