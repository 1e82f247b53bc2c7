// Theorems alone: when a channel sends which frame, over what ticks answer on the one-channel definition (crate `channel`, specs/OneChannel.antt).
// specs/Timing.antt states them.
#![tactic(auto)]
