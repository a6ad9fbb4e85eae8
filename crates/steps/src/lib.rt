// What each call does to a memory: definitions and theorems alone.
#![tactic(auto)]
