// No code: the definitions of Judge beside the plain judge, and demand 3 with its proof.
#![tactic(auto)]
