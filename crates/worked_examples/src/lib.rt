// No code: document 01's worked cards, the ones that it marks with a star, as rows of one list.
#![tactic(auto)]
