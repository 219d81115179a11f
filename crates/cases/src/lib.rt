#![tactic(auto)]

// Laws alone: the documents' own examples and every limit, in literal numbers, computed.
