// Laws alone: tests and searches over the numbers below a bound, and the loops that make them or fill an array.
#![tactic(auto)]
