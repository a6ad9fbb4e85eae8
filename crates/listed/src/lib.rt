// One list of calls, worked out: definitions and theorems alone.
#![tactic(auto)]
