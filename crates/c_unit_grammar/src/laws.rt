//! Laws of the definitions that contracts cite. The functions do nothing: each is here for what its contract says.
ghost use Rattle.c_unit_grammar.specs.Examples.{InitialisersRead, DeclarationsRead, StatementsRead, BlocksRead, ScopesRead, NestingRead};
ghost use Rattle.c_unit_grammar.specs.Sentences.{OkAtUnits, UnitsAreUnique};

/// What the grammar reads of short lists of tokens.
pub fn examples()
    ensures initialisers { InitialisersRead }
    ensures declarations { DeclarationsRead }
    ensures statements { StatementsRead }
    ensures blocks { BlocksRead }
    ensures scopes { ScopesRead }
    ensures nesting { NestingRead }
{}

/// Units (C11 6.9): Ok comes exactly where all the tokens are the spelling of a unit that the grammar has and that nests no
/// deeper than the limit, and gives that unit with the place where its source ends.
pub fn reads_units()
    ensures { OkAtUnits }
{}

/// Two units that the grammar has are one where their tokens and the places where their sources end are, however deep they
/// nest.
pub fn unit_spelling_is_unique()
    ensures { UnitsAreUnique }
{}
