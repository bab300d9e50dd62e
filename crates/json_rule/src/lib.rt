// Rules as JSON: definitions and laws, in specs/. There is no code.
#![tactic(auto)]
