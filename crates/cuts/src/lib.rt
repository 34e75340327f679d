// Laws alone: two cuts of a handle and one cut (document 02, §10).
#![tactic(auto)]
