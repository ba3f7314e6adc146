// What every layer says of lists: what a search of one finds.
#![tactic(auto)]
