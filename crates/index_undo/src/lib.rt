#![tactic(auto)]

// Laws alone: a kit entered and struck out next gives back the table word for word, since kits and the nodes of their rows tell a sound table.
