// What a call writes into bytes or numbers that it was lent: definitions and laws alone.
#![tactic(auto)]
