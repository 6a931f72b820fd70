//! Laws of the definitions. The functions do nothing: each is here for what its contract says.
ghost use Rattle.c_tree.specs.declared.typed.expression.TExpr.{TExpr};
ghost use Rattle.c_tree.specs.declared.typed.statement.TStmt.{TStmt};
ghost use Rattle.lowering_form.specs.Code.{Code};
ghost use Rattle.lowering_form.specs.Places.{Scope};
ghost use Rattle.lowering_form.specs.Expressions.{value_code};
ghost use Rattle.lowering_form.specs.Added.{Adds, GoesOn, weight_of};
ghost use Rattle.lowering_form.specs.Objects.{Body};
ghost use Rattle.lowering_form.specs.Statements.{statement_code};

/// The code of an expression: its acts stand behind those that were there, they count for at most what the expression
/// weighs, and it takes at most so many temporaries, none twice.
pub fn expressions_add_what_they_weigh()
    ensures { (a : TExpr) (sc : Scope) (k : Code) → Adds (weight_of a) k (value_code a sc k).code }
{}

/// The code of a statement: its acts, and the objects in memory and the variables that it declares, stand behind those that
/// were there.
pub fn statements_stand_behind()
    ensures { (t : TStmt) (sc : Scope) (b : Body) → GoesOn b (statement_code t sc b) }
{}
