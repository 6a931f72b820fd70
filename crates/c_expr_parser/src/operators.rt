//! Binary operators, conditional expressions, assignments and commas (C11 6.5.5 to 6.5.17).
//! All levels of binary operators are one function of the level.

ghost use Rattle.std.specs.Prelude.{◌≡◌};
ghost use Rattle.c_grammar.specs.Read.Depth.{inside};
ghost use Rattle.c_grammar.specs.Read.Expressions as spec;
ghost use Rattle.c_grammar.specs.Read.Nodes as nodes;
ghost use Rattle.c_tree.specs.Levels.Productions as production;
ghost use Rattle.c_expr_parser.specs.Numbers.{within_number};
ghost use Rattle.c_expr_parser.specs.Parts as parts;
ghost use Rattle.c_expr_parser.specs.Reads.{Reads, Keeps};
ghost use Rattle.c_expr_parser.specs.Nests.{Nests};

use crate::cursor::Cursor;
use crate::fault::Stop;
use crate::grammar::Grammar;
use crate::memory::pushed;
use crate::nodes::{is_unary, with_branches, with_commas, with_operands, with_targets};
use crate::operands::operator;
use crate::production::{Production, production_of};
use crate::wanted::{Found, Wanted, Within};
use c_tree::{Branch, Expr, Level, Next, Punct};
use std::alloc::Global;
use word_ops::Items;

// The levels of binary operators.
const LEVELS: usize = 10;

/// The levels, tightest first, from 0.
fn level_at(index: usize) -> Level
    ensures { result ≡ parts.level_at index }
{
    match index {
        0 => Level::Product,
        1 => Level::Sum,
        2 => Level::Shift,
        3 => Level::Relation,
        4 => Level::Equality,
        5 => Level::BitAnd,
        6 => Level::BitXor,
        7 => Level::BitOr,
        8 => Level::And,
        _ => Level::Or,
    }
}

impl<F: Fn(Global, &mut Cursor<'_>, usize, Wanted) -> Result<Found, Stop>> Grammar<F> {
    /// Operators of so many levels, the tightest, read to the left (C11 6.5.5 to 6.5.14).
    ///
    /// The first operand is read once, and then what stands behind it, level by level: so a first operand costs one call,
    /// and only operands on the right lead deeper.
    #[cycle(levels)]
    fn levels(&self, input: &mut Cursor<'_>, count: usize) -> Result<Expr, Stop>
        requires { Nests self.now.more (F.pre self.now.inside) (F.post self.now.inside) }
        ensures reads { Reads (parts.levels self.now.more (inside self.now.more) count input.old) result input.new }
        ensures keeps { Keeps input.old input.new }
    {
        let mut tree = self.cast(input)?;
        for index in 0..count {
            let rest = or_drop!(self.level_rest(input, index), tree);
            tree = with_operands(self.alloc, level_at(index), tree, rest)?;
        }
        Ok(tree)
    }

    // The operators of this level and the operand behind each.
    #[cycle(levels)]
    fn level_rest(&self, input: &mut Cursor<'_>, index: usize) -> Result<Items<Next>, Stop>
        requires { Nests self.now.more (F.pre self.now.inside) (F.post self.now.inside) }
        ensures reads { Reads (parts.level_rest self.now.more (inside self.now.more) index input.old) result input.new }
        ensures keeps { Keeps input.old input.new }
    {
        let mut found = Items::new(self.alloc);
        for _turn in 0..input.left() {
            if !input.goes(production_of(level_at(index))) {
                return Ok(found);
            }
            let next = or_drop!(self.level_next(input, index), found);
            found = pushed(self.alloc, found, next)?;
        }
        Ok(found)
    }

    #[cycle(levels)]
    #[tactic(auto, unfolding(c_grammar::specs::Read::Expressions::after_operator))]
    fn level_next(&self, input: &mut Cursor<'_>, index: usize) -> Result<Next, Stop>
        requires { Nests self.now.more (F.pre self.now.inside) (F.post self.now.inside) }
        ensures reads { Reads (spec.after_operator (parts.levels self.now.more (inside self.now.more) index) input.old) result input.new }
        ensures keeps { Keeps input.old input.new }
    {
        let operator = operator(input)?;
        let operand = self.levels(input, index)?;
        Ok(Next { operator, operand })
    }

    /// Operators of all levels.
    #[tactic(auto, using(crate::proofs::Levels::all_levels))]
    fn binary(&self, input: &mut Cursor<'_>) -> Result<Expr, Stop>
        requires { Nests self.now.more (F.pre self.now.inside) (F.post self.now.inside) }
        ensures reads { Reads (spec.or self.now.more (inside self.now.more) input.old) result input.new }
        ensures keeps { Keeps input.old input.new }
    {
        self.levels(input, LEVELS)
    }

    /// `?`, what is given, `:`, and the operand behind it.
    #[tactic(auto, unfolding(c_grammar::specs::Read::Expressions::branch))]
    fn branch(&self, input: &mut Cursor<'_>) -> Result<Branch, Stop>
        requires { Nests self.now.more (F.pre self.now.inside) (F.post self.now.inside) }
        ensures reads { Reads (spec.branch self.now.more (inside self.now.more) input.old) result input.new }
        ensures keeps { Keeps input.old input.new }
    {
        let question = input.opening(self.more, Punct::Question)?;
        let gives = self.expr(input, Within::Comma)?;
        let colon = or_drop!(input.expect(Punct::Colon), gives);
        let operand = or_drop!(self.binary(input), gives);
        Ok(Branch {
            question,
            gives,
            colon,
            operand,
        })
    }

    fn branches(&self, input: &mut Cursor<'_>) -> Result<Items<Branch>, Stop>
        requires { Nests self.now.more (F.pre self.now.inside) (F.post self.now.inside) }
        ensures reads { Reads (parts.branches self.now.more (inside self.now.more) input.old) result input.new }
        ensures keeps { Keeps input.old input.new }
    {
        let mut found = Items::new(self.alloc);
        for _turn in 0..input.left() {
            if !input.goes(Production::Conditional) {
                return Ok(found);
            }
            let next = or_drop!(self.branch(input), found);
            found = pushed(self.alloc, found, next)?;
        }
        Ok(found)
    }

    /// A conditional expression (C11 6.5.15).
    #[tactic(auto, unfolding(c_grammar::specs::Read::Expressions::conditional, crate::specs::Parts::branches))]
    fn conditional(&self, input: &mut Cursor<'_>) -> Result<Expr, Stop>
        requires { Nests self.now.more (F.pre self.now.inside) (F.post self.now.inside) }
        ensures reads { Reads (spec.conditional self.now.more (inside self.now.more) input.old) result input.new }
        ensures keeps { Keeps input.old input.new }
    {
        let first = self.binary(input)?;
        let rest = or_drop!(self.branches(input), first);
        with_branches(self.alloc, first, rest)
    }

    #[tactic(auto, unfolding(c_grammar::specs::Read::Expressions::after_operator))]
    fn target(&self, input: &mut Cursor<'_>) -> Result<Next, Stop>
        requires { Nests self.now.more (F.pre self.now.inside) (F.post self.now.inside) }
        ensures reads { Reads (spec.after_operator (spec.conditional self.now.more (inside self.now.more)) input.old) result input.new }
        ensures keeps { Keeps input.old input.new }
    {
        let operator = operator(input)?;
        let operand = self.conditional(input)?;
        Ok(Next { operator, operand })
    }

    // The operators and operands behind an assignment's first operand.
    fn targets(&self, input: &mut Cursor<'_>, first: &Expr) -> Result<Items<Next>, Stop>
        requires { Nests self.now.more (F.pre self.now.inside) (F.post self.now.inside) }
        ensures reads { Reads (parts.targets self.now.more (inside self.now.more) (nodes.is_unary first.now) input.old) result input.new }
        ensures keeps { Keeps input.old input.new }
    {
        let mut found = Items::new(self.alloc);
        let mut unary = is_unary(first);
        for _turn in 0..input.left() {
            if !(unary && input.goes(Production::Assignment)) {
                return Ok(found);
            }
            let next = or_drop!(self.target(input), found);
            unary = is_unary(&next.operand);
            found = pushed(self.alloc, found, next)?;
        }
        Ok(found)
    }

    /// An assignment expression, read to the right (C11 6.5.16).
    #[tactic(auto, unfolding(c_grammar::specs::Read::Expressions::assignment, c_grammar::specs::Read::Expressions::assigned_by, crate::specs::Parts::targets))]
    fn assignment(&self, input: &mut Cursor<'_>) -> Result<Expr, Stop>
        requires { Nests self.now.more (F.pre self.now.inside) (F.post self.now.inside) }
        ensures reads { Reads (spec.assignment self.now.more (inside self.now.more) input.old) result input.new }
        ensures keeps { Keeps input.old input.new }
    {
        let first = self.conditional(input)?;
        let rest = or_drop!(self.targets(input, &first), first);
        with_targets(self.alloc, first, rest)
    }

    #[tactic(auto, unfolding(c_grammar::specs::Read::Expressions::after_operator))]
    fn comma_next(&self, input: &mut Cursor<'_>) -> Result<Next, Stop>
        requires { Nests self.now.more (F.pre self.now.inside) (F.post self.now.inside) }
        ensures reads { Reads (spec.after_operator (spec.assignment self.now.more (inside self.now.more)) input.old) result input.new }
        ensures keeps { Keeps input.old input.new }
    {
        let operator = operator(input)?;
        let operand = self.assignment(input)?;
        Ok(Next { operator, operand })
    }

    fn comma_rest(&self, input: &mut Cursor<'_>) -> Result<Items<Next>, Stop>
        requires { Nests self.now.more (F.pre self.now.inside) (F.post self.now.inside) }
        ensures reads { Reads (spec.nexts production.comma (spec.assignment self.now.more (inside self.now.more)) input.old) result input.new }
        ensures keeps { Keeps input.old input.new }
    {
        let mut found = Items::new(self.alloc);
        for _turn in 0..input.left() {
            if !input.goes(Production::Comma) {
                return Ok(found);
            }
            let next = or_drop!(self.comma_next(input), found);
            found = pushed(self.alloc, found, next)?;
        }
        Ok(found)
    }

    /// An expression (C11 6.5.17).
    #[tactic(auto, unfolding(c_grammar::specs::Read::Expressions::comma, c_grammar::specs::Read::Expressions::commas_by))]
    fn comma(&self, input: &mut Cursor<'_>) -> Result<Expr, Stop>
        requires { Nests self.now.more (F.pre self.now.inside) (F.post self.now.inside) }
        ensures reads { Reads (spec.comma self.now.more (inside self.now.more) input.old) result input.new }
        ensures keeps { Keeps input.old input.new }
    {
        let first = self.assignment(input)?;
        let rest = or_drop!(self.comma_rest(input), first);
        with_commas(self.alloc, first, rest)
    }

    /// An expression of this production.
    #[tactic(auto, unfolding(c_grammar::specs::Read::Expressions::expression))]
    pub fn expression(&self, input: &mut Cursor<'_>, within: Within) -> Result<Expr, Stop>
        requires { Nests self.now.more (F.pre self.now.inside) (F.post self.now.inside) }
        ensures reads { Reads (spec.expression self.now.more (inside self.now.more) (within_number within) input.old) result input.new }
        ensures keeps { Keeps input.old input.new }
    {
        match within {
            Within::Comma => self.comma(input),
            Within::Assignment => self.assignment(input),
            Within::Conditional => self.conditional(input),
        }
    }
}
