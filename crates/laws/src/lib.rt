// Laws about the definitions that several crates cite. No code.
#![tactic(auto)]
