//! A function laid out, computed from the definitions. The function does nothing: it is here for what its contract says.
ghost use Rattle.laid_program.specs.Examples.{Lies, AllTrue};

/// A function over registers behind the start of a program: it lies there, and its records are true of its run.
pub fn laid_functions()
    ensures lies { Lies }
    ensures all_true { AllTrue }
{}
