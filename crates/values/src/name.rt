// Names.
ghost use Rattle.std.specs.Prelude.{Bool, [], ◌∷◌, ◌<◌, length};
ghost use Rattle.syntax.specs.Machine.{name as name_due};
ghost use Rattle.rules.specs.Items.{items as items_of};
ghost use Rattle.parser.specs.Promise.{Outcome};

use codes::{Node, Refusal, Refused};
use parser::{Events, Reached, Tokens};

// A Name is due.
pub fn name(tokens: &Tokens, from: Reached, events: &mut Events) -> Result<Reached, Refused>
    requires { from.next < length (items_of tokens.now.text.now) }
    ensures { (c : Bool) → Outcome c tokens.now.text.now (name_due ∷ []) [] events.old events.new from result }
{
    let token = tokens.peek(from.next);
    if !token.kind.is_name() {
        return Err(token.refused(Refusal::NoSentence));
    }
    events.leaf(Node::Name, token);
    Ok(token.reached())
}
