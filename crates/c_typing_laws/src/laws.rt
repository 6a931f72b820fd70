//! Laws of the definition of typing. The functions do nothing: each is here for what its contract says.

ghost use Rattle.c_typing_laws.specs.Laws.{CleanUnitsAreTyped, UnfaultedUnitsAreTyped};

/// A unit of the grammar in which no fault is told has a typed tree: typing is silent on nothing that it cannot type.
pub fn clean_units_are_typed()
    ensures clean { CleanUnitsAreTyped }
    ensures unfaulted { UnfaultedUnitsAreTyped }
{}
