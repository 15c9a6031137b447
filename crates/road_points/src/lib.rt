// Plans of a road are points of its program, and points with whole removals and exact volumes are plans: definitions and
// laws over them, without code.
#![tactic(auto)]
