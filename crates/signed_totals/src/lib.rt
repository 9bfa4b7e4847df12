// Laws of a signed group by the totals of its blocks: what its calls answer and leave where its counters hold totals. No code.
#![tactic(auto)]
