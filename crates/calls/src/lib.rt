// What each of the five public calls does, in specs/Calls.antt, and what ties it to a seat's code. There is no code here.
#![tactic(auto)]
