// Arguments, in round brackets: at least one, and the further ones are a loop.
ghost use Rattle.std.specs.Prelude.{◌≡◌, false, [], ◌∷◌, ℕ};
ghost use Rattle.codes.specs.ItemCodes as codes;
ghost use Rattle.syntax.specs.Machine.{opt_arguments, arguments as arguments_due};
ghost use Rattle.parser.specs.View.{token_of, Front, Seen};
ghost use Rattle.parser.specs.Promise.{Ready, Outcome, Goes};

use codes::{Kind, Node, Refusal, Refused};
use parser::{Events, Name, Peeked, Reached, Tokens};
use values::token::colon;
use values::value::value;

// An argument, which begins with its name: the `:` and the value follow.
pub fn argument(
    tokens: &Tokens,
    name: Name,
    depth: usize,
    events: &mut Events,
) -> Result<Reached, Refused>
    requires { Seen tokens.now.text.now name.token }
    ensures { (from : Reached) (start : ℕ) → Front tokens.now.text.now from.next name.token → Outcome false tokens.now.text.now (arguments_due depth start ∷ []) (arguments_due depth start ∷ []) events.old events.new from result }
{
    events.open(Node::Argument, name.token);
    events.leaf(Node::Name, name.token);
    let parted = colon(tokens, name.token.reached(), events)?;
    let valued = value(tokens, false, parted, depth, events)?;
    events.close(Node::Argument, name.token, valued.end);
    Ok(valued)
}

// Arguments, whose `(` is the token.
fn arguments(
    tokens: &Tokens,
    token: Peeked,
    depth: usize,
    events: &mut Events,
) -> Result<Reached, Refused>
    requires kind_value { (token_of token).kind ≡ codes.paren_l }
    requires seen { Seen tokens.now.text.now token }
    ensures { (from : Reached) → Front tokens.now.text.now from.next token → Outcome false tokens.now.text.now (opt_arguments depth ∷ []) [] events.old events.new from result }
{
    events.open_with(Node::Arguments, token);
    let mut at = token.reached();
    let first = tokens.peek(at.next);
    if !first.kind.is_name() {
        return Err(first.refused(Refusal::NoSentence));
    }
    // Stays: beside the loop of `values::value::list_value`, for the reason there; and the first item is asked apart, since arguments are never none.
    loop {
        let next = tokens.peek(at.next);
        let ends = next.kind.is(Kind::RParen);
        if ends {
            events.close_with(Node::Arguments, token, next);
            return Ok(next.reached());
        }
        let Some(name) = next.name() else {
            return Err(next.refused(Refusal::NoSentence));
        };
        at = argument(tokens, name, depth, events)?;
    }
}

// Arguments, or none.
// Stays: beside `opt_directives` and `opt_selection_set`. Three lines that differ in the kind, in what goes on, and in the symbol of the contract: one
// function would take a closure with a contract over that symbol, and be longer than the lines that it saves.
pub fn opt_arguments(
    tokens: &Tokens,
    from: Reached,
    depth: usize,
    events: &mut Events,
) -> Result<Reached, Refused>
    requires { Ready tokens.now.text.now from }
    ensures { Goes false tokens.now.text.now (opt_arguments depth ∷ []) [] events.old events.new from result }
{
    let token = tokens.peek(from.next);
    let begins = token.kind.is(Kind::LParen);
    if !begins {
        return Ok(from);
    }
    arguments(tokens, token, depth, events)
}
