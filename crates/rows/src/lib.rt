// No code: the marked rows of 01 as one computed table, in specs/.
#![tactic(auto)]
