#![tactic(auto)]

// Laws alone: where a sheet is at fault that is cut, has an item at fault or has bytes behind its end.
