// A call as every face of this project makes one: refusals that are tried in order, an answer, and what is left of each lent buffer.
#![tactic(auto)]
