// What a layer over a byte sink means: a stage is a byte sink again, a composer a paragraph taker.
#![tactic(auto)]
