// Laws only: what an accepted expression holds, by its kind.
#![tactic(auto)]
