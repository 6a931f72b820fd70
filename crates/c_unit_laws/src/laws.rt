//! Laws of what typing gives. The functions do nothing: each is here for what its contract says.

ghost use Rattle.c_unit_laws.specs.Laws.{JumpsAndLabelsFit, FunctionsHaveTokens, MainIsThere, ObjectsFit};

/// In every function that typing gives, `break` and `continue` have what they leave (C11 6.8.6.2p1, 6.8.6.3p1), and the labels
/// of each `switch` differ (C11 6.8.4.2p3).
pub fn jumps_and_labels_fit()
    ensures { JumpsAndLabelsFit }
{}

/// Every function that typing gives has tokens; where no fault is told, `main` is one of them (C11 5.1.2.2.1).
pub fn functions_are_there()
    ensures tokens { FunctionsHaveTokens }
    ensures main { MainIsThere }
{}

/// An object of a type of 1 to 2^24 bytes has an alignment that there is, and one of scalar type the size and the alignment of
/// the width at which it is kept (C11 6.2.5, 6.2.8).
pub fn objects_fit()
    ensures { ObjectsFit }
{}
