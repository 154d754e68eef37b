// Selection sets: at least one selection, and the further ones are a loop.
ghost use Rattle.std.specs.Prelude.{◌≡◌, true, false, [], ◌∷◌, ℕ};
ghost use Rattle.codes.specs.ItemCodes as codes;
ghost use Rattle.syntax.specs.Machine.{selection_set, opt_selection_set, selections as selections_due};
ghost use Rattle.parser.specs.Kinds.{number_of};
ghost use Rattle.parser.specs.View.{token_of, Front, Seen};
ghost use Rattle.parser.specs.Promise.{Ready, Outcome, Goes};
ghost use Rattle.selections.specs.Follows.{begins_selection};

use crate::field::field;
use crate::fragment::{Spread, fragment_spread, inline_fragment, is_fragment_name};
use codes::{Kind, Node, Refusal, Refused};
use parser::{Events, Peeked, Reached, TokenKind, Tokens};

// Does a selection begin with it: a Name or a `...`?
fn begins_selection(kind: TokenKind) -> bool
    ensures { result ≡ begins_selection (number_of kind) }
{
    kind.is(Kind::Spread) || kind.is_name()
}

// A selection, whose first token is the token.
#[cycle(selections)]
fn selection(
    tokens: &Tokens,
    token: Peeked,
    depth: usize,
    events: &mut Events,
) -> Result<Reached, Refused>
    requires kind_value { begins_selection (token_of token).kind ≡ true }
    requires seen { Seen tokens.now.text.now token }
    ensures { (from : Reached) (start : ℕ) → Front tokens.now.text.now from.next token → Outcome false tokens.now.text.now (selections_due depth start ∷ []) (selections_due depth start ∷ []) events.old events.new from result }
{
    if let Some(name) = token.name() {
        return field(tokens, name, depth, events);
    }
    let next = tokens.peek(token.next);
    let spread = Spread { dots: token, next };
    if is_fragment_name(next.kind) {
        return fragment_spread(tokens, spread, depth, events);
    }
    inline_fragment(tokens, spread, depth, events)
}

// A selection set, whose `{` is the token.
#[cycle(selections)]
fn selections(
    tokens: &Tokens,
    token: Peeked,
    depth: usize,
    events: &mut Events,
) -> Result<Reached, Refused>
    requires kind_value { (token_of token).kind ≡ codes.brace_l }
    requires seen { Seen tokens.now.text.now token }
    ensures { (from : Reached) → Front tokens.now.text.now from.next token → Outcome false tokens.now.text.now (selection_set depth ∷ []) [] events.old events.new from result }
{
    events.open_with(Node::SelectionSet, token);
    let mut at = token.reached();
    let first = tokens.peek(at.next);
    if depth == 0 {
        return Err(first.refused(Refusal::TooDeep));
    }
    if !begins_selection(first.kind) {
        return Err(first.refused(Refusal::NoSentence));
    }
    // Stays: beside the loop of `values::value::list_value`, for the reason there; and depth falls once for the set, before its first selection.
    loop {
        let next = tokens.peek(at.next);
        let ends = next.kind.is(Kind::RCurly);
        if ends {
            events.close_with(Node::SelectionSet, token, next);
            return Ok(next.reached());
        }
        if !begins_selection(next.kind) {
            return Err(next.refused(Refusal::NoSentence));
        }
        at = selection(tokens, next, depth - 1, events)?;
    }
}

// A selection set is due.
#[cycle(selections)]
pub fn selection_set(
    tokens: &Tokens,
    from: Reached,
    depth: usize,
    events: &mut Events,
) -> Result<Reached, Refused>
    requires { Ready tokens.now.text.now from }
    ensures { Goes false tokens.now.text.now (selection_set depth ∷ []) [] events.old events.new from result }
{
    let token = tokens.peek(from.next);
    let begins = token.kind.is(Kind::LCurly);
    if !begins {
        return Err(token.refused(Refusal::NoSentence));
    }
    selections(tokens, token, depth, events)
}

// A selection set, or none.
// Stays: beside `selection_set`. Where no `{` stands one is done and the other refuses: a flag would be a switch, a closure longer than the line.
#[cycle(selections)]
pub fn opt_selection_set(
    tokens: &Tokens,
    from: Reached,
    depth: usize,
    events: &mut Events,
) -> Result<Reached, Refused>
    requires { Ready tokens.now.text.now from }
    ensures { Goes false tokens.now.text.now (opt_selection_set depth ∷ []) [] events.old events.new from result }
{
    let token = tokens.peek(from.next);
    let begins = token.kind.is(Kind::LCurly);
    if !begins {
        return Ok(from);
    }
    selections(tokens, token, depth, events)
}
