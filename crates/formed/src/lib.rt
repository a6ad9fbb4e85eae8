// What a memory says, and when it is well formed: definitions and laws alone.
#![tactic(auto)]
