// What `drive` prints for a file of commands, and the log that it leaves (02, Ticket 4): definitions, and what is promised of them. There is no code.
#![tactic(auto)]
