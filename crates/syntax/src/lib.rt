// The grammar: definitions (specs/), laws (proofs/), and the view of an item tape as tokens.
#![tactic(auto)]
