// A machine that reads bytes and writes text, a command at a time: definitions and theorems, in specs/. The programs'
// libraries are such machines.
#![tactic(auto)]
