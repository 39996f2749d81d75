// The papers' bus rules, held against the sensor and its calls: definitions and theorems only (specs/).
#![tactic(auto)]
