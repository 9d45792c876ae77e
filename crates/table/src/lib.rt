// No code: the table of document 01, P1 to P16, as one theorem.
#![tactic(auto)]
