// What is proved of contact rows read and written.
#![tactic(auto)]
