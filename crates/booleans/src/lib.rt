// No code: laws of tests that are joined by `||` and `&&`, as `|`, `&` and `!` of the code are.
#![tactic(auto)]
