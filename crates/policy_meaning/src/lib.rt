//! What a policy means: its things, the windows on them that a subject is granted and what an
//! access may touch, what memory holds at the start, the frames of the scheduling plan, and which
//! event reaches whom. These are definitions alone, in specs/.
#![tactic(auto)]
