// Variables.
ghost use Rattle.std.specs.Prelude.{◌≡◌, false, [], ◌∷◌, ℕ};
ghost use Rattle.codes.specs.ItemCodes as codes;
ghost use Rattle.syntax.specs.Machine.{value as value_due};
ghost use Rattle.parser.specs.View.{token_of, Front, Seen};
ghost use Rattle.parser.specs.Promise.{Outcome};

use crate::name::name;
use codes::{Node, Refused};
use parser::{Events, Peeked, Reached, Tokens};

// A variable, whose `$` is the token.
pub fn variable(tokens: &Tokens, token: Peeked, events: &mut Events) -> Result<Reached, Refused>
    requires kind_value { (token_of token).kind ≡ codes.dollar }
    requires seen { Seen tokens.now.text.now token }
    ensures { (from : Reached) (depth : ℕ) → Front tokens.now.text.now from.next token → Outcome false tokens.now.text.now (value_due depth ∷ []) [] events.old events.new from result }
{
    events.open_with(Node::Variable, token);
    let named = name(tokens, token.reached(), events)?;
    events.close(Node::Variable, token, named.end);
    Ok(named)
}
