// The law of the volume between two lines: over a range of offsets between breakpoints a section's volume rises at least
// as its least slope and at most as its greatest, and without a breakpoint strictly inside it is exact. Lemmas only.
#![tactic(auto)]
