//! A cursor call that is accepted leaves the cursor Nowhere or on something inserted, and one that is refused leaves it and the program:
//! a definition and lemmas. There are no functions here.

#![tactic(auto)]
