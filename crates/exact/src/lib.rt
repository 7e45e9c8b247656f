// What the contracts of the frame reader and writer fix: what is accepted is exactly a frame, what was framed comes back, and no second
// answer fits. There is no operation here.
#![tactic(auto)]
