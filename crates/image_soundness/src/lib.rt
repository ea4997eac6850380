//! What an image means: what regions hold, the plan, events and devices that a policy asks for, and when an
//! image is sound for a policy. Definitions alone; see specs/.
#![tactic(auto)]
