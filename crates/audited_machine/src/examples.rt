//! Closed audits, computed from the definition. The functions do nothing: each is here for what its contract says.
ghost use Rattle.audited_machine.specs.Examples.Plain.{ExitsTrue, PutsFalse, PutsSpent, TrapsTrue};
ghost use Rattle.audited_machine.specs.Examples.Recorded.{AllTrue, WrongOperand, WrongStore, WrongArgument, WrongPassing, WrongPut, WrongBranch, WrongGet, WrongFacts};

/// Images without records: nothing is false of them but a byte that no record tells of.
pub fn audits_without_records()
    ensures exits { ExitsTrue }
    ensures puts { PutsFalse }
    ensures spent { PutsSpent }
    ensures traps { TrapsTrue }
{}

/// An image of two functions with nearly every kind of record, of which all is true, and eight edits of its records: each is found
/// at the step where it is false, by the clause that it breaks.
pub fn audits_of_records()
    ensures all { AllTrue }
    ensures operand { WrongOperand }
    ensures store { WrongStore }
    ensures argument { WrongArgument }
    ensures passing { WrongPassing }
    ensures put { WrongPut }
    ensures branch { WrongBranch }
    ensures get { WrongGet }
    ensures facts { WrongFacts }
{}
