// Directives: a loop, which ends where no `@` stands.
ghost use Rattle.std.specs.Prelude.{◌≡◌, false, [], ◌∷◌, ℕ};
ghost use Rattle.codes.specs.ItemCodes as codes;
ghost use Rattle.syntax.specs.Machine.{opt_directives, directives as directives_due};
ghost use Rattle.parser.specs.View.{token_of, Front, Seen};
ghost use Rattle.parser.specs.Promise.{Ready, Outcome, Goes};

use crate::argument::opt_arguments;
use codes::{Kind, Node, Refused};
use parser::{Events, Peeked, Reached, Tokens};
use values::name::name;

// A directive, whose `@` is the token: a Name follows, and arguments or none.
pub fn directive(
    tokens: &Tokens,
    token: Peeked,
    depth: usize,
    events: &mut Events,
) -> Result<Reached, Refused>
    requires kind_value { (token_of token).kind ≡ codes.at }
    requires seen { Seen tokens.now.text.now token }
    ensures { (from : Reached) (start : ℕ) → Front tokens.now.text.now from.next token → Outcome false tokens.now.text.now (directives_due depth start ∷ []) (directives_due depth start ∷ []) events.old events.new from result }
{
    events.open_with(Node::Directive, token);
    let named = name(tokens, token.reached(), events)?;
    let given = opt_arguments(tokens, named, depth, events)?;
    events.close(Node::Directive, token, given.end);
    Ok(given)
}

// Directives, the node of which began at the token `first`.
fn directives(
    tokens: &Tokens,
    from: Reached,
    first: Peeked,
    depth: usize,
    events: &mut Events,
) -> Result<Reached, Refused>
    requires { Ready tokens.now.text.now from }
    ensures { Goes false tokens.now.text.now (directives_due depth first.start ∷ []) [] events.old events.new from result }
{
    let mut at = from;
    // Stays: beside the loop of `values::value::list_value`, for the reason there; and no token ends directives.
    loop {
        let token = tokens.peek(at.next);
        let goes_on = token.kind.is(Kind::At);
        if !goes_on {
            events.close(Node::Directives, first, at.end);
            return Ok(at);
        }
        at = directive(tokens, token, depth, events)?;
    }
}

// Directives, or none.
pub fn opt_directives(
    tokens: &Tokens,
    from: Reached,
    depth: usize,
    events: &mut Events,
) -> Result<Reached, Refused>
    requires { Ready tokens.now.text.now from }
    ensures { Goes false tokens.now.text.now (opt_directives depth ∷ []) [] events.old events.new from result }
{
    let token = tokens.peek(from.next);
    let begins = token.kind.is(Kind::At);
    if !begins {
        return Ok(from);
    }
    events.open(Node::Directives, token);
    directives(tokens, from, token, depth, events)
}
