// A field: an alias or none, a name, then arguments, directives and a selection set, or none of them.
ghost use Rattle.std.specs.Prelude.{◌≡◌, Bool, false, [], ◌∷◌, ◌++◌, ℕ};
ghost use Rattle.codes.specs.EventCodes as nodes;
ghost use Rattle.syntax.specs.Token.{end_of, opens, closes, name_events, token_event};
ghost use Rattle.syntax.specs.Machine.{named as named_due, opt_arguments, opt_directives, opt_selection_set, close};
ghost use Rattle.parser.specs.View.{token_of, behind, Seen};
ghost use Rattle.parser.specs.Events.{Wrote};
ghost use Rattle.parser.specs.Promise.{Goes};

use crate::argument::opt_arguments;
use crate::directive::opt_directives;
use crate::selection::opt_selection_set;
use codes::{Kind, Node, Refused};
use parser::{Events, Name, Peeked, Reached, Tokens};
use values::name::name;

// An ALIAS: the name and its `:`.
fn alias(name: Name, colon: Peeked, events: &mut Events)
    ensures { Wrote events.old events.new (opens nodes.alias name.token.start ∷ (name_events (token_of name.token) ++ (token_event (token_of colon) ∷ closes nodes.alias name.token.start (end_of (token_of colon)) ∷ []))) }
{
    events.open(Node::Alias, name.token);
    events.leaf(Node::Name, name.token);
    events.close_with(Node::Alias, name.token, colon);
}

// The field opens, of which the first name is given: an alias if a `:` follows, and then the name; else the name.
fn field_head(tokens: &Tokens, first: Name, events: &mut Events) -> Result<Reached, Refused>
    requires { Seen tokens.now.text.now first.token }
    ensures { (c : Bool) (depth : ℕ) → Goes c tokens.now.text.now (named_due depth (token_of first.token) ∷ []) (opt_arguments depth ∷ opt_directives depth ∷ opt_selection_set depth ∷ close nodes.field first.token.start ∷ []) events.old events.new (behind first.token) result }
{
    let token = first.token;
    events.open(Node::Field, token);
    let colon = tokens.peek(token.next);
    let is_aliased = colon.kind.is(Kind::Colon);
    if is_aliased {
        alias(first, colon, events);
        return name(tokens, colon.reached(), events);
    }
    events.leaf(Node::Name, token);
    Ok(token.reached())
}

// A field without its selection set: what its first name begins, up to its directives.
fn field_parts(
    tokens: &Tokens,
    first: Name,
    depth: usize,
    events: &mut Events,
) -> Result<Reached, Refused>
    requires { Seen tokens.now.text.now first.token }
    ensures { Goes false tokens.now.text.now (named_due depth (token_of first.token) ∷ []) (opt_selection_set depth ∷ close nodes.field first.token.start ∷ []) events.old events.new (behind first.token) result }
{
    let head = field_head(tokens, first, events)?;
    let given = opt_arguments(tokens, head, depth, events)?;
    opt_directives(tokens, given, depth, events)
}

// A field, of which the first name is given.
#[cycle(selections)]
pub fn field(
    tokens: &Tokens,
    first: Name,
    depth: usize,
    events: &mut Events,
) -> Result<Reached, Refused>
    requires { Seen tokens.now.text.now first.token }
    ensures { Goes false tokens.now.text.now (named_due depth (token_of first.token) ∷ []) [] events.old events.new (behind first.token) result }
{
    let parts = field_parts(tokens, first, depth, events)?;
    let set = opt_selection_set(tokens, parts, depth, events)?;
    events.close(Node::Field, first.token, set.end);
    Ok(set)
}
