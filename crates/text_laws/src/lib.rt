// What is proved about a text run on the machine of Figure 2 alone: nothing here runs.

#![tactic(auto)]
