// Fragment spreads and inline fragments: what follows a `...`.
ghost use Rattle.std.specs.Prelude.{◌≡◌, Bool, true, false, [], ◌∷◌, ℕ};
ghost use Rattle.codes.specs.EventCodes as nodes;
ghost use Rattle.codes.specs.ItemCodes as codes;
ghost use Rattle.syntax.specs.Token.{word_on, is_fragment_name, opens, token_event};
ghost use Rattle.syntax.specs.Machine.{spread as spread_due, named_type, opt_directives, selection_set, close};
ghost use Rattle.parser.specs.declared.token.TokenKind.TheVariants as token_kind;
ghost use Rattle.parser.specs.Kinds.{number_of};
ghost use Rattle.parser.specs.View.{token_of, behind, Front, Seen};
ghost use Rattle.parser.specs.Promise.{Goes, Begun};

use crate::directive::opt_directives;
use crate::selection::selection_set;
use codes::{Kind, Node, Refused};
use parser::{Events, Peeked, Reached, TokenKind, Tokens, Word};
use typerefs::ty::named_type;

// A `...`, and the token after it.
#[derive(Clone, Copy)]
pub struct Spread {
    pub dots: Peeked,
    pub next: Peeked,
    ghost is: { (token_of dots).kind ≡ codes.dots },
}

// Is it a word that a FragmentName may be: all but `on`?
#[tactic(auto, unfolding(syntax::specs::Token::is_fragment_name))]
fn is_fragment_word(word: Word) -> bool
    ensures { result ≡ is_fragment_name (number_of (token_kind.Word word)) }
{
    match word {
        Word::True | Word::False | Word::Null => true,
        Word::On => false,
    }
}

// Is it a Name that a FragmentName may be?
pub fn is_fragment_name(kind: TokenKind) -> bool
    ensures { result ≡ is_fragment_name (number_of kind) }
{
    match kind {
        TokenKind::Word(word) => is_fragment_word(word),
        _ => kind.is(Kind::Name),
    }
}

// A fragment spread, whose name follows the `...`.
pub fn fragment_spread(
    tokens: &Tokens,
    spread: Spread,
    depth: usize,
    events: &mut Events,
) -> Result<Reached, Refused>
    requires seen { Seen tokens.now.text.now spread.dots }
    requires kind_value { is_fragment_name (token_of spread.next).kind ≡ true }
    requires front { Front tokens.now.text.now spread.dots.next spread.next }
    ensures { Goes false tokens.now.text.now (spread_due depth (token_of spread.dots) ∷ []) [] events.old events.new (behind spread.dots) result }
{
    events.open_with(Node::FragmentSpread, spread.dots);
    events.named(Node::FragmentName, spread.next);
    let directed = opt_directives(tokens, spread.next.reached(), depth, events)?;
    events.close(Node::FragmentSpread, spread.dots, directed.end);
    Ok(directed)
}

// A type condition, whose `on` is the token: a NAMED_TYPE follows.
fn type_condition(tokens: &Tokens, token: Peeked, events: &mut Events) -> Result<Reached, Refused>
    requires kind_value { (token_of token).kind ≡ word_on }
    requires seen { Seen tokens.now.text.now token }
    ensures { (c : Bool) → Begun c tokens.now.text.now (opens nodes.type_condition token.start ∷ token_event (token_of token) ∷ []) (named_type ∷ close nodes.type_condition token.start ∷ []) [] events.old events.new (behind token) result }
{
    events.open_with(Node::TypeCondition, token);
    let named = named_type(tokens, token.reached(), events)?;
    events.close(Node::TypeCondition, token, named.end);
    Ok(named)
}

// The inline fragment opens: with a type condition if the token after the `...` is `on`.
fn fragment_head(tokens: &Tokens, spread: Spread, events: &mut Events) -> Result<Reached, Refused>
    requires seen { Seen tokens.now.text.now spread.dots }
    requires kind_value { is_fragment_name (token_of spread.next).kind ≡ false }
    requires front { Front tokens.now.text.now spread.dots.next spread.next }
    ensures { (c : Bool) (depth : ℕ) → Goes c tokens.now.text.now (spread_due depth (token_of spread.dots) ∷ []) (opt_directives depth ∷ selection_set depth ∷ close nodes.inline_fragment spread.dots.start ∷ []) events.old events.new (behind spread.dots) result }
{
    events.open_with(Node::InlineFragment, spread.dots);
    if spread.next.kind.is_on() {
        return type_condition(tokens, spread.next, events);
    }
    Ok(spread.dots.reached())
}

// An inline fragment: what follows the `...` is no fragment's name.
#[cycle(selections)]
pub fn inline_fragment(
    tokens: &Tokens,
    spread: Spread,
    depth: usize,
    events: &mut Events,
) -> Result<Reached, Refused>
    requires seen { Seen tokens.now.text.now spread.dots }
    requires kind_value { is_fragment_name (token_of spread.next).kind ≡ false }
    requires front { Front tokens.now.text.now spread.dots.next spread.next }
    ensures { Goes false tokens.now.text.now (spread_due depth (token_of spread.dots) ∷ []) [] events.old events.new (behind spread.dots) result }
{
    let head = fragment_head(tokens, spread, events)?;
    let directed = opt_directives(tokens, head, depth, events)?;
    let set = selection_set(tokens, directed, depth, events)?;
    events.close(Node::InlineFragment, spread.dots, set.end);
    Ok(set)
}
