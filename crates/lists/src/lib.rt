// No code: lists that are made entry by entry, loops as folds, parts of lists, and their laws.
#![tactic(auto)]
