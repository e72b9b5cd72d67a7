// The theorems. A function that does nothing promises them, so that each must be proved: none can be lost while it stands in specs/.
#![tactic(auto)]

ghost use Rattle.theorems.specs.Theorems.{Theorems};

// What is proved beside the promises of the functions.
pub fn theorems()
    ensures { Theorems }
{}
