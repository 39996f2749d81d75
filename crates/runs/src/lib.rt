// No code: demand 3 and what is delivered, the code as a host, and runs that complete a register write, in specs/.
#![tactic(auto)]
