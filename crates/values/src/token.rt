// The `:`.
ghost use Rattle.std.specs.Prelude.{Bool, [], ◌∷◌, ◌<◌, length};
ghost use Rattle.syntax.specs.Machine.{colon_due};
ghost use Rattle.rules.specs.Items.{items as items_of};
ghost use Rattle.parser.specs.Promise.{Outcome};

use codes::{Kind, Refusal, Refused};
use parser::{Events, Reached, Tokens};

// A `:` is due.
// Stays: beside `name`, `typerefs::ty::named_type`, `end_list` and `selection_set`. One function that asks for a kind would have to promise on Err which
// token it refused, for the caller's clause to be proved of it: longer than the three lines that each has.
pub fn colon(tokens: &Tokens, from: Reached, events: &mut Events) -> Result<Reached, Refused>
    requires { from.next < length (items_of tokens.now.text.now) }
    ensures { (c : Bool) → Outcome c tokens.now.text.now (colon_due ∷ []) [] events.old events.new from result }
{
    let token = tokens.peek(from.next);
    let has_colon = token.kind.is(Kind::Colon);
    if !has_colon {
        return Err(token.refused(Refusal::NoSentence));
    }
    events.token(token);
    Ok(token.reached())
}
