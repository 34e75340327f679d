// Laws alone: what the calls keep, two copies that run one list, and that readers alter nothing.
#![tactic(auto)]
