// What is proved of the text of a sheet and of the calls: its S lines are what the calls answer.
#![tactic(auto)]
