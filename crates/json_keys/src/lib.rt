// Keys of JSON objects that occur twice: definitions and laws, in specs/. There is no code.
#![tactic(auto)]
