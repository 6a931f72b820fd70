//! An integer constant expression means the number that it is folded to.
//!
//! c_layout tells that number from the tree alone, c_meaning what an expression does in a state. There is
//! no running code here; the law stands on a function that does nothing.
#![tactic(auto)]

ghost use Rattle.std.specs.Prelude.{◌≡◌, ℕ, true, Some, None};
ghost use Rattle.word_ops.specs.Store.{Store, Number};
ghost use Rattle.word_ops.specs.Run.{Outside, Gives, Undefined};
ghost use Rattle.c_tree.specs.declared.typed.expression.TExpr.{TExpr};
ghost use Rattle.c_layout.specs.Constants.{constant_of, has_constant_form};
ghost use Rattle.c_meaning.specs.Environment.{Environment};
ghost use Rattle.c_meaning.specs.Expressions.{Calls, value};

/// Evaluated in any state, an integer constant expression gives its value and does nothing else; an expression
/// of that form that has no value is undefined (C11 6.6p2, p4).
pub fn constants_mean_their_value()
    ensures value { (e : TExpr) (n : ℕ) (call : Calls) (env : Environment) (st : Store) (w : Outside) →
        constant_of e ≡ Some n → value call e env st w ≡ Gives st w (Number n) }
    ensures undefined { (e : TExpr) (call : Calls) (env : Environment) (st : Store) (w : Outside) →
        has_constant_form e ≡ true → constant_of e ≡ None → value call e env st w ≡ Undefined }
{}
