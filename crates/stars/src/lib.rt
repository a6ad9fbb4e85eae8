// The starred instances of document 01: definitions and theorems alone.
#![tactic(auto)]
