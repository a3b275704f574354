// The largest payload held, from open on; payload bytes held, accepted and gone over a list of calls (02, Ticket 8). There is no code here: the definitions and
// claims stand in specs/, what is proved of them in proofs/.
#![tactic(auto)]
