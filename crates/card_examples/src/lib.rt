// No code: worked readings of cards, as rows of one list.
#![tactic(auto)]
