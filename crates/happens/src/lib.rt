// Every stored write happens, over either bus, and every cut of it: definitions and theorems only (specs/).
#![tactic(auto)]
