// What `lost` counts (02, Ticket 7). There is no code here: the definitions stand in calls and recordlog, the claims in specs/, what is proved of them
// in proofs/.
#![tactic(auto)]
