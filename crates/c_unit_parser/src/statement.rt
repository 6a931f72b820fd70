//! Statements (C11 6.8).
//! Each body is a scope, and each `else` goes to the nearest `if` that can take it.

ghost use Rattle.std.specs.Prelude.{◌≡◌, ◌≤◌, OnOk};
ghost use Rattle.c_tree.specs.declared.token.Punct.TheVariants as p;
ghost use Rattle.c_tree.specs.Levels.Productions as production;
ghost use Rattle.c_grammar.specs.Input.{choose, sees};
ghost use Rattle.c_grammar.specs.Read.Depth.{inside};
ghost use Rattle.c_expr_parser.specs.Reads.{Keeps};
ghost use Rattle.c_unit_grammar.specs.Read.Statements as spec;
ghost use Rattle.c_unit_grammar.specs.Read.Statements.{within};
ghost use Rattle.c_unit_parser.specs.Reads.{Reads};
ghost use Rattle.c_unit_parser.specs.Nests.{Nests};
ghost use Rattle.c_unit_parser.specs.Parts as parts;

use crate::cursor::Cursor;
use crate::grammar::Grammar;
use crate::memory::{boxed, pushed};
use crate::wanted::{Found, Wanted};
use crate::words::{StatementKind, statement_kind};
use c_expr_parser::{ParseFault, or_drop};
use c_tree::{Condition, Else, Expr, ForControl, ForHead, IfHead, Keyword, Pos, Punct, Stmt};
use std::alloc::Global;
use word_ops::{Boxed, Items};

// An expression or nothing, and the mark behind it; inside a bracket, where so many could be opened with that one.
#[tactic(auto, unfolding(c_unit_grammar::specs::Read::Statements::value_until))]
fn value_until(
    alloc: Global,
    input: &mut Cursor<'_>,
    more: u32,
    op: Punct,
) -> Result<(Option<Expr>, Pos), ParseFault>
    requires { more ≤ 257 }
    ensures reads { Reads (spec.value_until op ((inside more).expr production.comma) input.old.state) input.old.end result input.new }
    ensures keeps { OnOk result (Keeps input.old.state input.new.state) }
    ensures ends { input.new.end ≡ input.old.end }
{
    if input.sees(op) {
        let at = input.expect(op)?;
        return Ok((None, at));
    }
    let value = input.nested_expression(alloc, more)?;
    let at = or_drop!(input.expect(op), value);
    Ok((Some(value), at))
}

// `else`, where the `if` may take one.
fn goes_else(input: &Cursor<'_>, may: bool) -> bool
    ensures { result ≡ spec.goes_else may input.now.state }
{
    may && input.sees_word(Keyword::Else)
}

impl<F: Fn(Global, &mut Cursor<'_>, u32, Wanted) -> Result<Found, ParseFault>> Grammar<F> {
    /// `(` expression `)`
    #[tactic(auto, unfolding(c_unit_grammar::specs::Read::Statements::condition))]
    fn condition(&self, input: &mut Cursor<'_>) -> Result<Condition, ParseFault>
        requires { Nests self.now.more (F.pre self.now.inside) (F.post self.now.inside) }
        ensures reads { Reads (spec.condition self.now.more input.old.state) input.old.end result input.new }
        ensures keeps { OnOk result (Keeps input.old.state input.new.state) }
        ensures ends { input.new.end ≡ input.old.end }
    {
        let opening = input.opening(self.more, Punct::LeftParen)?;
        let value = input.nested_expression(self.alloc, self.more)?;
        let closing = or_drop!(input.expect(Punct::RightParen), value);
        Ok(Condition {
            opening,
            value,
            closing,
        })
    }

    #[tactic(auto, unfolding(c_unit_grammar::specs::Read::Statements::for_head))]
    fn for_head(&self, input: &mut Cursor<'_>) -> Result<ForHead, ParseFault>
        requires { Nests self.now.more (F.pre self.now.inside) (F.post self.now.inside) }
        ensures reads { Reads (spec.for_head self.now.more input.old.state) input.old.end result input.new }
        ensures keeps { OnOk result (Keeps input.old.state input.new.state) }
        ensures ends { input.new.end ≡ input.old.end }
    {
        if input.begins_declaration() {
            return Ok(ForHead::Declaration(self.nested_declaration(input)?));
        }
        let (value, semicolon) = value_until(self.alloc, input, self.more, Punct::Semicolon)?;
        Ok(ForHead::Expression(value, semicolon))
    }

    /// The brackets of `for` and what stands in them (C11 6.8.5.3).
    #[tactic(auto, unfolding(c_unit_grammar::specs::Read::Statements::for_control))]
    fn for_control(&self, input: &mut Cursor<'_>) -> Result<ForControl, ParseFault>
        requires { Nests self.now.more (F.pre self.now.inside) (F.post self.now.inside) }
        ensures reads { Reads (spec.for_control self.now.more input.old.state) input.old.end result input.new }
        ensures keeps { OnOk result (Keeps input.old.state input.new.state) }
        ensures ends { input.new.end ≡ input.old.end }
    {
        let opening = input.opening(self.more, Punct::LeftParen)?;
        let head = self.for_head(input)?;
        let (condition, semicolon) = or_drop!(
            value_until(self.alloc, input, self.more, Punct::Semicolon),
            head
        );
        let (step, closing) = or_drop!(
            value_until(self.alloc, input, self.more, Punct::RightParen),
            head,
            condition
        );
        Ok(ForControl {
            opening,
            head,
            condition,
            semicolon,
            step,
            closing,
        })
    }

    #[tactic(auto, using(crate::proofs::Depth::behind_bracket), unfolding(c_unit_grammar::specs::Read::Statements::expression_statement))]
    fn expression_statement(&self, input: &mut Cursor<'_>) -> Result<Stmt, ParseFault>
        requires { Nests self.now.more (F.pre self.now.inside) (F.post self.now.inside) }
        ensures reads { Reads (spec.expression_statement self.now.more input.old.state) input.old.end result input.new }
        ensures keeps { OnOk result (Keeps input.old.state input.new.state) }
        ensures ends { input.new.end ≡ input.old.end }
    {
        let (value, semicolon) = value_until(self.alloc, input, self.more + 1, Punct::Semicolon)?;
        Ok(Stmt::Expression(value, semicolon))
    }

    #[tactic(auto, unfolding(c_unit_grammar::specs::Read::Statements::break_statement))]
    fn break_statement(&self, input: &mut Cursor<'_>) -> Result<Stmt, ParseFault>
        requires { Nests self.now.more (F.pre self.now.inside) (F.post self.now.inside) }
        ensures reads { Reads (spec.break_statement self.now.more input.old.state) input.old.end result input.new }
        ensures keeps { OnOk result (Keeps input.old.state input.new.state) }
        ensures ends { input.new.end ≡ input.old.end }
    {
        let word = input.expect_word(Keyword::Break)?;
        let semicolon = input.expect(Punct::Semicolon)?;
        Ok(Stmt::Break(word, semicolon))
    }

    #[tactic(auto, unfolding(c_unit_grammar::specs::Read::Statements::continue_statement))]
    fn continue_statement(&self, input: &mut Cursor<'_>) -> Result<Stmt, ParseFault>
        requires { Nests self.now.more (F.pre self.now.inside) (F.post self.now.inside) }
        ensures reads { Reads (spec.continue_statement self.now.more input.old.state) input.old.end result input.new }
        ensures keeps { OnOk result (Keeps input.old.state input.new.state) }
        ensures ends { input.new.end ≡ input.old.end }
    {
        let word = input.expect_word(Keyword::Continue)?;
        let semicolon = input.expect(Punct::Semicolon)?;
        Ok(Stmt::Continue(word, semicolon))
    }

    #[tactic(auto, using(crate::proofs::Depth::behind_bracket), unfolding(c_unit_grammar::specs::Read::Statements::return_statement))]
    fn return_statement(&self, input: &mut Cursor<'_>) -> Result<Stmt, ParseFault>
        requires { Nests self.now.more (F.pre self.now.inside) (F.post self.now.inside) }
        ensures reads { Reads (spec.return_statement self.now.more input.old.state) input.old.end result input.new }
        ensures keeps { OnOk result (Keeps input.old.state input.new.state) }
        ensures ends { input.new.end ≡ input.old.end }
    {
        let word = input.expect_word(Keyword::Return)?;
        let (value, semicolon) = value_until(self.alloc, input, self.more + 1, Punct::Semicolon)?;
        Ok(Stmt::Return(word, value, semicolon))
    }

    // A body, block or not, whose scope is open.
    fn body_in_scope(&self, input: &mut Cursor<'_>) -> Result<Boxed<Stmt>, ParseFault>
        requires { Nests self.now.more (F.pre self.now.inside) (F.post self.now.inside) }
        ensures reads { Reads (choose (sees p.LeftBrace) (spec.block_statement self.now.more (within self.now.more)) (within self.now.more).body input.old.state) input.old.end result input.new }
        ensures keeps { OnOk result (Keeps input.old.state input.new.state) }
        ensures ends { input.new.end ≡ input.old.end }
    {
        if input.sees(Punct::LeftBrace) {
            return boxed(self.alloc, self.block_statement(input)?);
        }
        boxed(self.alloc, self.nested_body(input)?)
    }

    /// A body, which is a scope (C11 6.8.4p3, 6.8.5p5).
    #[tactic(auto, using(c_expr_parser::proofs::Marks::mark_is_in, c_expr_parser::proofs::Marks::kept_back), unfolding(c_unit_grammar::specs::Read::Statements::body))]
    fn body(&self, input: &mut Cursor<'_>) -> Result<Boxed<Stmt>, ParseFault>
        requires { Nests self.now.more (F.pre self.now.inside) (F.post self.now.inside) }
        ensures reads { Reads (spec.body self.now.more (within self.now.more) input.old.state) input.old.end result input.new }
        ensures keeps { OnOk result (Keeps input.old.state input.new.state) }
        ensures ends { input.new.end ≡ input.old.end }
    {
        let scope = input.mark();
        let tree = self.body_in_scope(input)?;
        input.leave(scope);
        Ok(tree)
    }

    fn else_if(&self, input: &mut Cursor<'_>, word: Pos) -> Result<Else, ParseFault>
        requires { Nests self.now.more (F.pre self.now.inside) (F.post self.now.inside) }
        ensures reads { Reads (spec.else_if self.now.more (within self.now.more) word input.old.state) input.old.end result input.new }
        ensures keeps { OnOk result (Keeps input.old.state input.new.state) }
        ensures ends { input.new.end ≡ input.old.end }
    {
        let if_word = input.expect_word(Keyword::If)?;
        let condition = self.condition(input)?;
        let body = or_drop!(self.body(input), condition).into_inner();
        let head = Some(IfHead {
            word: if_word,
            condition,
        });
        Ok(Else { word, head, body })
    }

    fn last_else(&self, input: &mut Cursor<'_>, word: Pos) -> Result<Else, ParseFault>
        requires { Nests self.now.more (F.pre self.now.inside) (F.post self.now.inside) }
        ensures reads { Reads (spec.last_else self.now.more (within self.now.more) word input.old.state) input.old.end result input.new }
        ensures keeps { OnOk result (Keeps input.old.state input.new.state) }
        ensures ends { input.new.end ≡ input.old.end }
    {
        let body = self.body(input)?.into_inner();
        Ok(Else {
            word,
            head: None,
            body,
        })
    }

    #[tactic(auto, unfolding(c_unit_grammar::specs::Read::Statements::one_else))]
    fn one_else(&self, input: &mut Cursor<'_>) -> Result<Else, ParseFault>
        requires { Nests self.now.more (F.pre self.now.inside) (F.post self.now.inside) }
        ensures reads { Reads (spec.one_else self.now.more (within self.now.more) input.old.state) input.old.end result input.new }
        ensures keeps { OnOk result (Keeps input.old.state input.new.state) }
        ensures ends { input.new.end ≡ input.old.end }
    {
        let word = input.expect_word(Keyword::Else)?;
        if input.sees_word(Keyword::If) {
            return self.else_if(input, word);
        }
        self.last_else(input, word)
    }

    // Each `else` that the `if` can take; none behind one without `if`.
    #[tactic(auto, unfolding(crate::specs::Parts::others))]
    fn others(&self, input: &mut Cursor<'_>) -> Result<Items<Else>, ParseFault>
        requires { Nests self.now.more (F.pre self.now.inside) (F.post self.now.inside) }
        ensures reads { Reads (parts.others self.now.more input.old.state) input.old.end result input.new }
        ensures keeps { OnOk result (Keeps input.old.state input.new.state) }
        ensures ends { input.new.end ≡ input.old.end }
    {
        let mut found = Items::new(self.alloc);
        let mut may = true;
        for _turn in 0..input.left() {
            if !goes_else(input, may) {
                return Ok(found);
            }
            let next = or_drop!(self.one_else(input), found);
            may = next.head.is_some();
            found = pushed(self.alloc, found, next)?;
        }
        Ok(found)
    }

    #[tactic(auto, using(c_expr_parser::proofs::Marks::mark_is_in, c_expr_parser::proofs::Marks::kept_back), unfolding(c_unit_grammar::specs::Read::Statements::if_statement, crate::specs::Parts::others))]
    fn if_statement(&self, input: &mut Cursor<'_>) -> Result<Stmt, ParseFault>
        requires { Nests self.now.more (F.pre self.now.inside) (F.post self.now.inside) }
        ensures reads { Reads (spec.if_statement self.now.more (within self.now.more) input.old.state) input.old.end result input.new }
        ensures keeps { OnOk result (Keeps input.old.state input.new.state) }
        ensures ends { input.new.end ≡ input.old.end }
    {
        let scope = input.mark();
        let word = input.expect_word(Keyword::If)?;
        let condition = self.condition(input)?;
        let body = or_drop!(self.body(input), condition);
        let others = or_drop!(self.others(input), condition, body);
        input.leave(scope);
        Ok(Stmt::If {
            word,
            condition,
            body,
            others,
        })
    }

    #[tactic(auto, using(c_expr_parser::proofs::Marks::mark_is_in, c_expr_parser::proofs::Marks::kept_back), unfolding(c_unit_grammar::specs::Read::Statements::while_statement))]
    fn while_statement(&self, input: &mut Cursor<'_>) -> Result<Stmt, ParseFault>
        requires { Nests self.now.more (F.pre self.now.inside) (F.post self.now.inside) }
        ensures reads { Reads (spec.while_statement self.now.more (within self.now.more) input.old.state) input.old.end result input.new }
        ensures keeps { OnOk result (Keeps input.old.state input.new.state) }
        ensures ends { input.new.end ≡ input.old.end }
    {
        let scope = input.mark();
        let word = input.expect_word(Keyword::While)?;
        let condition = self.condition(input)?;
        let body = or_drop!(self.body(input), condition);
        input.leave(scope);
        Ok(Stmt::While(word, condition, body))
    }

    #[tactic(auto, using(c_expr_parser::proofs::Marks::mark_is_in, c_expr_parser::proofs::Marks::kept_back), unfolding(c_unit_grammar::specs::Read::Statements::do_statement))]
    fn do_statement(&self, input: &mut Cursor<'_>) -> Result<Stmt, ParseFault>
        requires { Nests self.now.more (F.pre self.now.inside) (F.post self.now.inside) }
        ensures reads { Reads (spec.do_statement self.now.more (within self.now.more) input.old.state) input.old.end result input.new }
        ensures keeps { OnOk result (Keeps input.old.state input.new.state) }
        ensures ends { input.new.end ≡ input.old.end }
    {
        let scope = input.mark();
        let word = input.expect_word(Keyword::Do)?;
        let body = self.body(input)?;
        let while_word = or_drop!(input.expect_word(Keyword::While), body);
        let condition = or_drop!(self.condition(input), body);
        let semicolon = or_drop!(input.expect(Punct::Semicolon), body, condition);
        input.leave(scope);
        Ok(Stmt::Do {
            word,
            body,
            while_word,
            condition,
            semicolon,
        })
    }

    #[tactic(auto, using(c_expr_parser::proofs::Marks::mark_is_in, c_expr_parser::proofs::Marks::kept_back), unfolding(c_unit_grammar::specs::Read::Statements::for_statement))]
    fn for_statement(&self, input: &mut Cursor<'_>) -> Result<Stmt, ParseFault>
        requires { Nests self.now.more (F.pre self.now.inside) (F.post self.now.inside) }
        ensures reads { Reads (spec.for_statement self.now.more (within self.now.more) input.old.state) input.old.end result input.new }
        ensures keeps { OnOk result (Keeps input.old.state input.new.state) }
        ensures ends { input.new.end ≡ input.old.end }
    {
        let scope = input.mark();
        let word = input.expect_word(Keyword::For)?;
        let control = self.for_control(input)?;
        let body = or_drop!(self.body(input), control);
        input.leave(scope);
        Ok(Stmt::For(word, control, body))
    }

    #[tactic(auto, using(c_expr_parser::proofs::Marks::mark_is_in, c_expr_parser::proofs::Marks::kept_back), unfolding(c_unit_grammar::specs::Read::Statements::switch_statement))]
    fn switch_statement(&self, input: &mut Cursor<'_>) -> Result<Stmt, ParseFault>
        requires { Nests self.now.more (F.pre self.now.inside) (F.post self.now.inside) }
        ensures reads { Reads (spec.switch_statement self.now.more (within self.now.more) input.old.state) input.old.end result input.new }
        ensures keeps { OnOk result (Keeps input.old.state input.new.state) }
        ensures ends { input.new.end ≡ input.old.end }
    {
        let scope = input.mark();
        let word = input.expect_word(Keyword::Switch)?;
        let condition = self.condition(input)?;
        let body = or_drop!(self.scoped_block(input, true), condition);
        input.leave(scope);
        Ok(Stmt::Switch(word, condition, body))
    }

    /// A statement (C11 6.8).
    #[tactic(auto, unfolding(c_unit_grammar::specs::Read::Statements::statement))]
    pub fn statement(&self, input: &mut Cursor<'_>) -> Result<Stmt, ParseFault>
        requires { Nests self.now.more (F.pre self.now.inside) (F.post self.now.inside) }
        ensures reads { Reads (spec.statement self.now.more (within self.now.more) input.old.state) input.old.end result input.new }
        ensures keeps { OnOk result (Keeps input.old.state input.new.state) }
        ensures ends { input.new.end ≡ input.old.end }
    {
        match statement_kind(input.kind()) {
            StatementKind::Braced => self.block_statement(input),
            StatementKind::If => self.if_statement(input),
            StatementKind::While => self.while_statement(input),
            StatementKind::Do => self.do_statement(input),
            StatementKind::For => self.for_statement(input),
            StatementKind::Switch => self.switch_statement(input),
            StatementKind::Break => self.break_statement(input),
            StatementKind::Continue => self.continue_statement(input),
            StatementKind::Return => self.return_statement(input),
            StatementKind::Expression => self.expression_statement(input),
        }
    }
}
