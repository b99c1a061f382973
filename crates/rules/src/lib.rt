// Definitions and theorems only: what scripts mean stands in specs/, and there is no code.
#![tactic(auto)]
