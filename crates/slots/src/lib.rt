// A record of each kind, for what stands past the end of a lent table: definitions alone.
#![tactic(auto)]
