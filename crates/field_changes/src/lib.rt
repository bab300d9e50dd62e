// Fields of a record that come and go while rules are open beside its schema (document 02, T-14).
#![tactic(auto)]
