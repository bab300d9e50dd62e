// What holds of the two conversions between sheets and JSON: laws, in specs/. There is no code.
#![tactic(auto)]
