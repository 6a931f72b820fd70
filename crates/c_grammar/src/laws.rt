//! Laws of the definitions that contracts cite. The functions do nothing: each is here for what its contract says.
ghost use Rattle.c_grammar.specs.Examples.{ExpressionsRead, CastsRead, DeclaratorsRead, SpecifiersRead, NestingRead};
ghost use Rattle.c_grammar.specs.Laws.Productions.{CommasAtFront, AssignmentsAtFront, ConditionalsAtFront, SpecifiersAtFront, DeclaratorsAtFront, ExpressionsAreUnique, SpecifiersAreUnique, DeclaratorsAreUnique, FrontsAreUnique, NoTypedefsDeclared};

/// What the grammar reads of short lists of tokens.
pub fn examples()
    ensures expressions { ExpressionsRead }
    ensures casts { CastsRead }
    ensures declarators { DeclaratorsRead }
    ensures specifiers { SpecifiersRead }
    ensures nesting { NestingRead }
{}

/// Expressions (C11 6.5), assignments (C11 6.5.16) and conditional expressions (C11 6.5.15): under any names and limit, Ok
/// comes exactly where the longest front of the tokens that begins a levelled tree is itself the spelling of one within
/// the limit, and gives that tree, the names with those that it declares, and the tokens behind it.
pub fn reads_expressions()
    ensures commas { CommasAtFront }
    ensures assignments { AssignmentsAtFront }
    ensures conditionals { ConditionalsAtFront }
{}

/// Specifiers (C11 6.7.1 to 6.7.3), with storage words or without: the same.
pub fn reads_specifiers()
    ensures { SpecifiersAtFront }
{}

/// Declarators (C11 6.7.6, 6.7.7), with a name, without one, or of a parameter, behind specifiers that name a type or do
/// not: the same.
pub fn reads_declarators()
    ensures { DeclaratorsAtFront }
{}

/// Two levelled trees of one spelling are one.
pub fn spelling_is_unique()
    ensures expressions { ExpressionsAreUnique }
    ensures specifiers { SpecifiersAreUnique }
    ensures declarators { DeclaratorsAreUnique }
{}

/// A list of tokens has at most one longest front that begins a levelled tree of a production.
pub fn front_is_unique()
    ensures { FrontsAreUnique }
{}

/// No tree of a production declares a typedef name for what stands behind it: what it declares is enumerators (C11 6.7.2.2),
/// and what its parameter lists declare ends with them (C11 6.2.1p4).
pub fn declares_no_typedefs()
    ensures { NoTypedefsDeclared }
{}
