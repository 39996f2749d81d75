// What demand 3 says of the bytes that the bench program reads and prints: definitions and theorems only.
#![tactic(auto)]
