//! Laws of the definitions that contracts cite. The functions do nothing: each is here for what its contract says.

ghost use Rattle.c_typing.specs.Laws.{FirstIsTold, NoneIsTold, CompositeFits};
ghost use Rattle.c_typing.specs.Examples.Expressions.{ExpressionsTyped};
ghost use Rattle.c_typing.specs.Examples.Operators.{OperatorsTyped};
ghost use Rattle.c_typing.specs.Examples.Declarators.{DeclaratorsTyped};
ghost use Rattle.c_typing.specs.Examples.Statements.{StatementsTyped, InitialisersTyped};
ghost use Rattle.c_typing.specs.Examples.Units.{UnitsTyped};

/// What is told of small constructs and units, by computation.
pub fn examples()
    ensures expressions { ExpressionsTyped }
    ensures operators { OperatorsTyped }
    ensures declarators { DeclaratorsTyped }
    ensures statements { StatementsTyped }
    ensures initialisers { InitialisersTyped }
    ensures units { UnitsTyped }
{}

/// The fault that is told of a unit is one of its faults, and no other one comes before it, by place and then by
/// kind; and none is told only where there is none.
pub fn first_is_told()
    ensures first { FirstIsTold }
    ensures none { NoneIsTold }
{}

/// The composite type of two compatible types is compatible with both (C11 6.2.7p3).
pub fn composite_fits()
    ensures { CompositeFits }
{}
