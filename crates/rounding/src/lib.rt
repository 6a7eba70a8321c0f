// No code: numbers in units of the least of them, how near a number is to a known one, and the laws on rounding that both the root and the logarithm need.
#![tactic(auto)]
