// Laws of a group by the totals of its blocks: the block that totals leave, for any level, and what a group's calls answer and leave of it. No code.
#![tactic(auto)]
