// No code: lists of calls, the write book, and demand 3 over the definitions, in specs/.
#![tactic(auto)]
