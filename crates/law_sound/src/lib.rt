// Laws: the table of every accepted text is sound. There is no code here.
#![tactic(auto)]
