//! The rows of assignments (C11 6.5.16), which are read from the right: `Assigned` keeps
//! the left sides that were passed, and the value at the right end.

ghost use Rattle.std.specs.Prelude.{◌≡◌, ◌∷◌, ◌++◌, [], true, Some, None, IfOk, reverse};
ghost use Rattle.std.specs.Option.{option_map};
ghost use Rattle.c_tree.specs.declared.typed.expression.TExpr.TheVariants as x;
ghost use Rattle.c_typing.specs.declared.operator.Row.TheVariants as row;
ghost use Rattle.c_typing.specs.Types as types;
ghost use Rattle.c_typing.specs.Scopes as scopes;
ghost use Rattle.c_typing.specs.Operands as operands;
ghost use Rattle.c_typing.specs.Operators as operators;
ghost use Rattle.c_typing.specs.Expressions as spec;
ghost use Rattle.c_typing.specs.OfTrees as trees;
ghost use Rattle.c_type_expressions.specs.declared.assignments.Assigned.TheVariants as assigned;
ghost use Rattle.c_type_expressions.specs.Told.{WalksAs};
ghost use Rattle.c_type_expressions.specs.Lvalues.{IsLvalue};
ghost use Rattle.c_type_expressions.specs.Assignments.{assigned_of, targets_of, IsContained, target_by, last_of};
ghost use Rattle.c_type_expressions.specs.Preceded.{preceded_by};

use crate::given::is_struct_given;
use crate::refusals::refused;
use crate::stand_in::{combined_types, takes, takes_back, takes_value, value_type};
use crate::trees::{converted_tree, tree_at, with_item};
use crate::writing::target_row;
use c_layout::Tags;
use c_tree::typed::{Arithmetic, CType, Change, Scalar, TExpr, Target};
use c_tree::{FaultKind, Mark, Pos, Punct};
use c_type_rules::{
    contained, conversion_to, copied, is_null_constant, is_pointer, scalar_of, tree_of,
    unqualified, value, valued,
};
use c_type_walk::{Around, Found};
use c_typing::{Form, Operand, Plan, Row};
use std::alloc::Global;
use word_ops::{Boxed, Items, Memory};

/// A chain of assignments as far as it has been read, from the right (C11 6.5.16p3). Its tree is made once, by
/// `assigned_value`.
#[derive(Drop)]
pub enum Assigned {
    /// the value at the right end, to whose left nothing has been assigned yet
    End(Operand),
    /// assignments
    Targets(Assignment),
}

/// Assignments that stand in a row.
#[derive(Drop)]
pub struct Assignment {
    /// the type of the value that they give: that of the left side that stands first
    pub ctype: CType,
    /// the left side that stands first
    pub first: Target,
    /// the other left sides, the last one first
    pub others: Items<Target>,
    /// the value at the right end
    pub last: TExpr,
}

/// The right end of a chain of assignments.
///
/// # Errors
///
/// `Memory` where memory is wanting.
pub fn assigned_end(alloc: Global, operand: Operand) -> Result<Assigned, Memory>
    ensures { IfOk result (λ a. assigned_of a ≡ trees.assigned_end operand) }
{
    Ok(Assigned::End(valued(alloc, operand)?))
}

/// The value of a whole chain of assignments (C11 6.5.16p3).
///
/// # Errors
///
/// `Memory` where memory is wanting.
pub fn assigned_value(alloc: Global, assigned: Assigned) -> Result<Operand, Memory>
    ensures { IfOk result (λ o. o ≡ (assigned_of assigned).whole) }
{
    match assigned {
        Assigned::End(operand) => Ok(operand),
        Assigned::Targets(assignment) => assignment_value(alloc, assignment),
    }
}

/// The value of assignments.
fn assignment_value(alloc: Global, assignment: Assignment) -> Result<Operand, Memory>
    ensures { IfOk result (λ o. o ≡ operands.value assignment.ctype (x.Assign assignment.ctype (targets_of assignment) assignment.last)) }
{
    let Assignment {
        ctype,
        first,
        others,
        last,
    } = assignment;
    let Ok(targets) = in_order(alloc, first, others) else {
        drop((ctype, last));
        return Err(Memory);
    };
    let Ok(last) = Boxed::new(alloc, last) else {
        drop((ctype, targets));
        return Err(Memory);
    };
    let Ok(again) = copied(alloc, &ctype) else {
        drop((ctype, targets, last));
        return Err(Memory);
    };
    Ok(value(alloc, ctype, TExpr::Assign(again, targets, last)))
}

/// Left sides in their order.
fn in_order(
    alloc: Global,
    first: Target,
    mut others: Items<Target>,
) -> Result<Items<Target>, Memory>
    ensures { IfOk result (λ list. list ≡ first ∷ reverse others) }
{
    let Ok(mut list) = with_item(Items::new(alloc), first) else {
        drop(others);
        return Err(Memory);
    };
    while let Some(target) = others.pop() {
        let Ok(longer) = with_item(list, target) else {
            drop(others);
            return Err(Memory);
        };
        list = longer;
    }
    drop(others);
    Ok(list)
}

/// An assignment of what stands to its right (C11 6.5.16.1, 6.5.16.2).
///
/// # Errors
///
/// `Memory` where memory is wanting.
pub fn assign_row(
    alloc: Global,
    found: &mut Found,
    around: &Around<'_>,
    mark: Mark,
    left: Option<Operand>,
    right: Option<Assigned>,
) -> Result<Option<Assigned>, Memory>
    ensures { WalksAs assigned_of (spec.assign_row mark left (option_map assigned_of right)) around.now found.old result found.new }
{
    let Some(left) = left else {
        drop(right);
        return Ok(None);
    };
    let Ok(left) = target_row(found, around, mark.place, left) else {
        drop(right);
        return Err(Memory);
    };
    both_row(alloc, found, around, mark, left, right)
}

/// The same of a left side that may be written.
fn both_row(
    alloc: Global,
    found: &mut Found,
    around: &Around<'_>,
    mark: Mark,
    left: Option<Operand>,
    right: Option<Assigned>,
) -> Result<Option<Assigned>, Memory>
    requires { IsLvalue left }
    ensures { WalksAs assigned_of (scopes.both_asked left (option_map assigned_of right) (spec.assign_by mark.place (operators.contained mark.punct))) around.now found.old result found.new }
{
    let Some(left) = left else {
        drop(right);
        return Ok(None);
    };
    let Some(right) = right else {
        drop(left);
        return Ok(None);
    };
    match contained(mark.punct) {
        None => simple_row(alloc, found, around, mark.place, left, right),
        Some(operator) => compound_row(alloc, found, around, mark.place, operator, left, right),
    }
}

/// `=` (C11 6.5.16.1).
fn simple_row(
    alloc: Global,
    found: &mut Found,
    around: &Around<'_>,
    place: Pos,
    left: Operand,
    right: Assigned,
) -> Result<Option<Assigned>, Memory>
    ensures { WalksAs assigned_of (spec.assign_by place None left (assigned_of right)) around.now found.old result found.new }
{
    if is_struct_given(&left.ctype, right.ctype()) {
        return refused(found, around, FaultKind::StructValue, place, (left, right));
    }
    let Some(scalar) = scalar_of(&left.ctype) else {
        return refused(found, around, FaultKind::Mismatch, place, (left, right));
    };
    let Ok(is_taken) = right.is_assignable_to(alloc, &left.ctype) else {
        drop((left, right));
        return Err(Memory);
    };
    if !is_taken {
        return refused(found, around, FaultKind::Mismatch, place, (left, right));
    }
    Ok(Some(assigned_to(alloc, left, scalar, None, None, right)?))
}

/// An assignment with an operator in it (C11 6.5.16.2).
fn compound_row(
    alloc: Global,
    found: &mut Found,
    around: &Around<'_>,
    place: Pos,
    operator: Punct,
    left: Operand,
    right: Assigned,
) -> Result<Option<Assigned>, Memory>
    requires lvalue { operands.is_lvalue left ≡ true }
    requires contained { IsContained operator }
    ensures { WalksAs assigned_of (spec.assign_by place (Some operator) left (assigned_of right)) around.now found.old result found.new }
{
    let Ok(row) = right.combined(alloc, &found.state.structs, operator, &left) else {
        drop((left, right));
        return Err(Memory);
    };
    match row {
        Row::Planned(plan) => planned_row(alloc, found, around, place, left, plan, right),
        Row::Wrong(kind) => refused(found, around, kind, place, (left, right)),
        Row::Other => refused(found, around, FaultKind::Mismatch, place, (left, right)),
    }
}

/// The same where the operator has a plan for both sides.
fn planned_row(
    alloc: Global,
    found: &mut Found,
    around: &Around<'_>,
    place: Pos,
    left: Operand,
    plan: Plan,
    right: Assigned,
) -> Result<Option<Assigned>, Memory>
    requires { operands.is_lvalue left ≡ true }
    ensures { WalksAs assigned_of (spec.compound_by place left (assigned_of right) (row.Planned plan)) around.now found.old result found.new }
{
    let Some(scalar) = scalar_of(&left.ctype) else {
        return refused(
            found,
            around,
            FaultKind::Mismatch,
            place,
            (left, plan, right),
        );
    };
    let Ok(is_taken) = takes_back(alloc, &left, &plan.result) else {
        drop((left, plan, right));
        return Err(Memory);
    };
    if !is_taken {
        return refused(
            found,
            around,
            FaultKind::Mismatch,
            place,
            (left, plan, right),
        );
    }
    Ok(Some(assigned_by(alloc, left, scalar, plan, right)?))
}

/// A chain with one more left side in front, to which an operator leads by this plan.
fn assigned_by(
    alloc: Global,
    left: Operand,
    scalar: Scalar,
    plan: Plan,
    right: Assigned,
) -> Result<Assigned, Memory>
    ensures { IfOk result (λ a. assigned_of a ≡ spec.assigned_to left scalar (Some plan.operator) (Some plan.right) (assigned_of right)) }
{
    let Plan {
        left: left_type,
        right: right_type,
        operator,
        result: given,
    } = plan;
    drop((left_type, given));
    assigned_to(alloc, left, scalar, Some(operator), Some(right_type), right)
}

impl Assigned {
    /// The type of its value.
    fn ctype(&self) -> &CType
        ensures { result.now ≡ (assigned_of self.now).whole.ctype }
    {
        match self {
            Assigned::End(operand) => &operand.ctype,
            Assigned::Targets(assignment) => &assignment.ctype,
        }
    }

    /// Whether its value is assignable to an object of this type, whatever the qualifiers (C11 6.5.16.1p1).
    fn is_assignable_to(&self, alloc: Global, ctype: &CType) -> Result<bool, Memory>
        ensures { IfOk result (λ b. b ≡ operands.is_assignable (types.unqualified ctype.now) (assigned_of self.now).whole) }
    {
        match self {
            Assigned::End(operand) => takes(alloc, ctype, operand),
            Assigned::Targets(assignment) => takes_value(alloc, ctype, &assignment.ctype),
        }
    }

    /// What the operator in a compound assignment makes of the value of its left side and this value.
    fn combined(
        &self,
        alloc: Global,
        tags: &Tags,
        operator: Punct,
        left: &Operand,
    ) -> Result<Row, Memory>
        requires lvalue { operands.is_lvalue left.now ≡ true }
        requires contained { IsContained operator }
        ensures { IfOk result (λ row. row ≡ operators.binary tags.now operator (operands.valued left.now) (assigned_of self.now).whole) }
    {
        let left = value_type(alloc, left)?;
        let Ok(right) = copied(alloc, self.ctype()) else {
            drop(left);
            return Err(Memory);
        };
        combined_types(alloc, tags, operator, left, right)
    }
}

/// A chain with one more left side in front. In a compound assignment the value at the right end is an operand of its
/// operator, and is converted to this type.
fn assigned_to(
    alloc: Global,
    left: Operand,
    scalar: Scalar,
    operator: Option<Arithmetic>,
    operand_type: Option<CType>,
    right: Assigned,
) -> Result<Assigned, Memory>
    ensures { IfOk result (λ a. assigned_of a ≡ spec.assigned_to left scalar operator operand_type (assigned_of right)) }
{
    let Ok(side) = left_side(alloc, scalar, operator, left) else {
        drop((operand_type, right));
        return Err(Memory);
    };
    preceded(alloc, side.0, side.1, operand_type, right)
}

/// The type of the value of an assignment to this left side (C11 6.5.16p3), and the left side with its change.
fn left_side(
    alloc: Global,
    scalar: Scalar,
    operator: Option<Arithmetic>,
    left: Operand,
) -> Result<(CType, Target), Memory>
    ensures { IfOk result (λ side. side ≡ (types.unqualified left.ctype, spec.target_of_form left.form scalar (types.unqualified left.ctype) operator left)) }
{
    let Ok(ctype) = assigned_type(alloc, &left) else {
        drop(left);
        return Err(Memory);
    };
    let Ok(first) = changed(alloc, &ctype, scalar, operator, left) else {
        drop(ctype);
        return Err(Memory);
    };
    Ok((ctype, first))
}

/// The type of the value of an assignment to this left side (C11 6.5.16p3).
fn assigned_type(alloc: Global, left: &Operand) -> Result<CType, Memory>
    ensures { IfOk result (λ t. t ≡ types.unqualified left.now.ctype) }
{
    Ok(unqualified(copied(alloc, &left.ctype)?))
}

/// A left side, and what is done with its object, which is given a value of this type.
fn changed(
    alloc: Global,
    ctype: &CType,
    scalar: Scalar,
    operator: Option<Arithmetic>,
    left: Operand,
) -> Result<Target, Memory>
    ensures { IfOk result (λ t. t ≡ spec.target_of_form left.form scalar ctype.now operator left) }
{
    let conversion = conversion_to(ctype);
    let change = Change {
        scalar,
        operator,
        conversion,
    };
    target_of(alloc, change, left)
}

/// A chain with one more left side in front, with the type of the value that it gives.
fn preceded(
    alloc: Global,
    ctype: CType,
    first: Target,
    operand_type: Option<CType>,
    right: Assigned,
) -> Result<Assigned, Memory>
    ensures { IfOk result (λ a. assigned_of a ≡ preceded_by ctype first operand_type (assigned_of right)) }
{
    match right {
        Assigned::End(operand) => one_target(alloc, ctype, first, operand_type, operand),
        Assigned::Targets(assignment) => one_more_target(ctype, first, assignment),
    }
}

/// One left side, and the value at the right end.
fn one_target(
    alloc: Global,
    ctype: CType,
    first: Target,
    operand_type: Option<CType>,
    operand: Operand,
) -> Result<Assigned, Memory>
    ensures { IfOk result (λ a. a ≡ assigned.Targets (record { ctype = ctype; first = first; others = []; last = last_of operand_type ctype operand })) }
{
    let Ok(last) = last_as(alloc, operand_type, &ctype, operand) else {
        drop((ctype, first));
        return Err(Memory);
    };
    Ok(Assigned::Targets(Assignment {
        ctype,
        first,
        others: Items::new(alloc),
        last,
    }))
}

/// One more left side in front of others.
fn one_more_target(ctype: CType, first: Target, assignment: Assignment) -> Result<Assigned, Memory>
    ensures { IfOk result (λ a. a ≡ assigned.Targets (record { ctype = ctype; first = first; others = assignment.others ++ assignment.first ∷ []; last = assignment.last })) }
{
    let Assignment {
        ctype: before,
        first: second,
        others,
        last,
    } = assignment;
    drop(before);
    let Ok(others) = with_item(others, second) else {
        drop((ctype, first, last));
        return Err(Memory);
    };
    Ok(Assigned::Targets(Assignment {
        ctype,
        first,
        others,
        last,
    }))
}

/// The left side of an assignment: an automatic object by its name, or another object by its address.
fn target_of(alloc: Global, change: Change, left: Operand) -> Result<Target, Memory>
    ensures { IfOk result (λ t. t ≡ target_by change left) }
{
    match left.form {
        Form::Named { place, .. } => {
            drop(left);
            Ok(Target::Variable(place, change))
        }
        _ => Ok(Target::Place(tree_of(alloc, left)?, change)),
    }
}

/// The value at the right end: converted as an operand of the operator, or a null pointer where a pointer is given a null
/// pointer constant.
fn last_as(
    alloc: Global,
    operand_type: Option<CType>,
    ctype: &CType,
    operand: Operand,
) -> Result<TExpr, Memory>
    ensures { IfOk result (λ tree. tree ≡ last_of operand_type ctype.now operand) }
{
    match operand_type {
        Some(operand_type) => converted_tree(alloc, operand_type, operand),
        None => last_given(alloc, ctype, operand),
    }
}

/// The same where the assignment has no operator.
fn last_given(alloc: Global, ctype: &CType, operand: Operand) -> Result<TExpr, Memory>
    ensures { IfOk result (λ tree. tree ≡ last_of None ctype.now operand) }
{
    if is_pointer(ctype) && is_null_constant(&operand) {
        tree_at(alloc, ctype, operand)
    } else {
        tree_of(alloc, operand)
    }
}
