// Runs of operations on a tray kept open: theory alone.
#![tactic(auto)]
