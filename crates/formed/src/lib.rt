// What passes the check is live, and what is live passes: laws in specs/, no code.
#![tactic(auto)]
