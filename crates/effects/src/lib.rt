// What each effect on a sensor leaves as it is: definitions and theorems only (specs/).
#![tactic(auto)]
