// Laws only: what code that answers with a number says of the definition's outcome.
#![tactic(auto)]
