//! Primary, postfix and unary expressions and casts (C11 6.5.1 to 6.5.4).
//! What an operator joins: the tokens from a run of prefixes to the last suffix.

ghost use Rattle.std.specs.Prelude.{◌≡◌};
ghost use Rattle.c_grammar.specs.Input as state;
ghost use Rattle.c_grammar.specs.Read.Depth.{inside};
ghost use Rattle.c_grammar.specs.Read.Expressions as spec;
ghost use Rattle.c_tree.specs.Levels.Productions as production;
ghost use Rattle.c_expr_parser.specs.Parts as parts;
ghost use Rattle.c_expr_parser.specs.Reads.{Reads, Keeps};
ghost use Rattle.c_expr_parser.specs.Nests.{Nests};

use crate::cursor::Cursor;
use crate::fault::Stop;
use crate::grammar::Grammar;
use crate::memory::{alone, boxed, copied, pushed};
use crate::nodes::{ties, with_run, with_suffixes};
use crate::production::Production;
use crate::wanted::{Found, Wanted, Within};
use crate::words::{is_bytes, is_prefix, is_sizeof};
use c_tree::{
    Expr, Identifier, Keyword, Literal, Mark, Next, Pos, Prefix, Punct, Suffix, TokenKind,
};
use std::alloc::Global;
use word_ops::Items;

// A name that is no typedef name, or a constant.
#[inline(never)]
#[tactic(auto, unfolding(c_grammar::specs::Input::one, c_grammar::specs::Input::behind))]
fn atom(alloc: Global, input: &mut Cursor<'_>) -> Result<Expr, Stop>
    ensures reads { Reads (state.one spec.atom_at input.old) result input.new }
    ensures keeps { Keeps input.old input.new }
{
    let token = input.next_token()?;
    let place = token.place;
    let tree = match &token.kind {
        TokenKind::Name(text) => {
            if input.is_typedef(text) {
                return Err(Stop::Syntax);
            }
            let text = copied(alloc, text)?;
            Expr::Name(Identifier { text, place })
        }
        TokenKind::Number { value, kind } => Expr::Number(*value, *kind, place),
        TokenKind::Char(value) => Expr::Char(*value, place),
        TokenKind::Keyword(_) | TokenKind::Bytes(_) | TokenKind::Punct(_) => {
            return Err(Stop::Syntax);
        }
    };
    input.advance();
    Ok(tree)
}

#[inline(never)]
#[tactic(auto, unfolding(c_grammar::specs::Input::one, c_grammar::specs::Input::behind))]
fn literal(alloc: Global, input: &mut Cursor<'_>) -> Result<Literal, Stop>
    ensures reads { Reads (state.one spec.literal_at input.old) result input.new }
    ensures keeps { Keeps input.old input.new }
{
    let token = input.next_token()?;
    let TokenKind::Bytes(bytes) = &token.kind else {
        return Err(Stop::Syntax);
    };
    let bytes = copied(alloc, bytes)?;
    input.advance();
    Ok(Literal {
        bytes,
        place: token.place,
    })
}

/// The next token, a punctuator.
#[inline(never)]
#[tactic(auto, unfolding(c_grammar::specs::Input::one, c_grammar::specs::Input::behind))]
pub fn operator(input: &mut Cursor<'_>) -> Result<Mark, Stop>
    ensures reads { Reads (state.one spec.operator_at input.old) result input.new }
    ensures keeps { Keeps input.old input.new }
{
    let token = input.next_token()?;
    let TokenKind::Punct(punct) = token.kind else {
        return Err(Stop::Syntax);
    };
    input.advance();
    Ok(Mark {
        punct,
        place: token.place,
    })
}

#[inline(never)]
#[tactic(auto, unfolding(c_grammar::specs::Input::one, c_grammar::specs::Input::behind))]
fn plain_prefix(input: &mut Cursor<'_>) -> Result<Prefix, Stop>
    ensures reads { Reads (state.one spec.prefix_at input.old) result input.new }
    ensures keeps { Keeps input.old input.new }
{
    let token = input.next_token()?;
    let place = token.place;
    let prefix = match token.kind {
        TokenKind::Punct(punct) if is_prefix(punct) => Prefix::Operator(Mark { punct, place }),
        TokenKind::Keyword(Keyword::Sizeof) => Prefix::Sizeof(place),
        _ => return Err(Stop::Syntax),
    };
    input.advance();
    Ok(prefix)
}

#[inline(never)]
#[tactic(auto, unfolding(c_grammar::specs::Input::one, c_grammar::specs::Input::behind))]
fn sizeof_word(input: &mut Cursor<'_>) -> Result<Pos, Stop>
    ensures reads { Reads (state.one spec.sizeof_at input.old) result input.new }
    ensures keeps { Keeps input.old input.new }
{
    let token = input.next_token()?;
    let TokenKind::Keyword(Keyword::Sizeof) = token.kind else {
        return Err(Stop::Syntax);
    };
    input.advance();
    Ok(token.place)
}

// The literals behind the first.
#[inline(never)]
fn more_literals(
    alloc: Global,
    input: &mut Cursor<'_>,
    first: Literal,
) -> Result<Items<Literal>, Stop>
    ensures reads { Reads (parts.literals first input.old) result input.new }
    ensures keeps { Keeps input.old input.new }
{
    let mut found = alone(alloc, first)?;
    for _turn in 0..input.left() {
        if !is_bytes(input.kind()) {
            return Ok(found);
        }
        let next = or_drop!(literal(alloc, input), found);
        found = pushed(alloc, found, next)?;
    }
    Ok(found)
}

impl<F: Fn(Global, &mut Cursor<'_>, usize, Wanted) -> Result<Found, Stop>> Grammar<F> {
    /// One or more string literals (C11 6.5.1).
    #[inline(never)]
    #[tactic(auto, using(crate::proofs::Strings::strings_read, crate::proofs::Strings::strings_refused, crate::proofs::Strings::no_strings))]
    fn strings(&self, input: &mut Cursor<'_>) -> Result<Expr, Stop>
        requires { Nests self.now.more (F.pre self.now.inside) (F.post self.now.inside) }
        ensures reads { Reads (spec.strings self.now.more (inside self.now.more) input.old) result input.new }
        ensures keeps { Keeps input.old input.new }
    {
        let first = literal(self.alloc, input)?;
        let all = more_literals(self.alloc, input, first)?;
        Ok(Expr::Strings(all))
    }

    #[inline(never)]
    #[tactic(auto, unfolding(c_grammar::specs::Read::Expressions::member))]
    fn dot(&self, input: &mut Cursor<'_>) -> Result<Suffix, Stop>
        requires { Nests self.now.more (F.pre self.now.inside) (F.post self.now.inside) }
        ensures reads { Reads (spec.member self.now.more (inside self.now.more) input.old) result input.new }
        ensures keeps { Keeps input.old input.new }
    {
        let at = input.expect(Punct::Dot)?;
        let name = input.identifier(self.alloc)?;
        Ok(Suffix::Member(at, name))
    }

    #[inline(never)]
    #[tactic(auto, unfolding(c_grammar::specs::Read::Expressions::arrow))]
    fn arrow(&self, input: &mut Cursor<'_>) -> Result<Suffix, Stop>
        requires { Nests self.now.more (F.pre self.now.inside) (F.post self.now.inside) }
        ensures reads { Reads (spec.arrow self.now.more (inside self.now.more) input.old) result input.new }
        ensures keeps { Keeps input.old input.new }
    {
        let at = input.expect(Punct::Arrow)?;
        let name = input.identifier(self.alloc)?;
        Ok(Suffix::Arrow(at, name))
    }

    #[inline(never)]
    #[tactic(auto, unfolding(c_grammar::specs::Read::Expressions::increment))]
    fn increment(&self, input: &mut Cursor<'_>) -> Result<Suffix, Stop>
        requires { Nests self.now.more (F.pre self.now.inside) (F.post self.now.inside) }
        ensures reads { Reads (spec.increment self.now.more (inside self.now.more) input.old) result input.new }
        ensures keeps { Keeps input.old input.new }
    {
        Ok(Suffix::Increment(input.expect(Punct::Increment)?))
    }

    #[inline(never)]
    #[tactic(auto, unfolding(c_grammar::specs::Read::Expressions::decrement))]
    fn decrement(&self, input: &mut Cursor<'_>) -> Result<Suffix, Stop>
        requires { Nests self.now.more (F.pre self.now.inside) (F.post self.now.inside) }
        ensures reads { Reads (spec.decrement self.now.more (inside self.now.more) input.old) result input.new }
        ensures keeps { Keeps input.old input.new }
    {
        Ok(Suffix::Decrement(input.expect(Punct::Decrement)?))
    }

    /// `(` expression `)` (C11 6.5.1)
    #[tactic(auto, unfolding(c_grammar::specs::Read::Expressions::paren))]
    fn paren(&self, input: &mut Cursor<'_>) -> Result<Expr, Stop>
        requires { Nests self.now.more (F.pre self.now.inside) (F.post self.now.inside) }
        ensures reads { Reads (spec.paren self.now.more (inside self.now.more) input.old) result input.new }
        ensures keeps { Keeps input.old input.new }
    {
        let from = input.opening(self.more, Punct::LeftParen)?;
        let inner = boxed(self.alloc, self.expr(input, Within::Comma)?)?;
        let to = or_drop!(input.expect(Punct::RightParen), inner);
        Ok(Expr::Paren(from, inner, to))
    }

    /// A primary expression (C11 6.5.1).
    #[tactic(auto, unfolding(c_grammar::specs::Read::Expressions::primary))]
    fn primary(&self, input: &mut Cursor<'_>) -> Result<Expr, Stop>
        requires { Nests self.now.more (F.pre self.now.inside) (F.post self.now.inside) }
        ensures reads { Reads (spec.primary self.now.more (inside self.now.more) input.old) result input.new }
        ensures keeps { Keeps input.old input.new }
    {
        if input.sees(Punct::LeftParen) {
            return self.paren(input);
        }
        if is_bytes(input.kind()) {
            return self.strings(input);
        }
        atom(self.alloc, input)
    }

    #[tactic(auto, unfolding(c_grammar::specs::Read::Expressions::index))]
    fn index(&self, input: &mut Cursor<'_>) -> Result<Suffix, Stop>
        requires { Nests self.now.more (F.pre self.now.inside) (F.post self.now.inside) }
        ensures reads { Reads (spec.index self.now.more (inside self.now.more) input.old) result input.new }
        ensures keeps { Keeps input.old input.new }
    {
        let from = input.opening(self.more, Punct::LeftBracket)?;
        let inner = self.expr(input, Within::Comma)?;
        let to = or_drop!(input.expect(Punct::RightBracket), inner);
        Ok(Suffix::Index(from, inner, to))
    }

    #[tactic(auto, unfolding(c_grammar::specs::Read::Expressions::after_operator))]
    fn argument(&self, input: &mut Cursor<'_>) -> Result<Next, Stop>
        requires { Nests self.now.more (F.pre self.now.inside) (F.post self.now.inside) }
        ensures reads { Reads (spec.after_operator ((inside self.now.more).expr production.assignment) input.old) result input.new }
        ensures keeps { Keeps input.old input.new }
    {
        let operator = operator(input)?;
        let operand = self.expr(input, Within::Assignment)?;
        Ok(Next { operator, operand })
    }

    fn more_arguments(&self, input: &mut Cursor<'_>) -> Result<Items<Next>, Stop>
        requires { Nests self.now.more (F.pre self.now.inside) (F.post self.now.inside) }
        ensures reads { Reads (spec.nexts production.comma ((inside self.now.more).expr production.assignment) input.old) result input.new }
        ensures keeps { Keeps input.old input.new }
    {
        let mut found = Items::new(self.alloc);
        for _turn in 0..input.left() {
            if !input.goes(Production::Comma) {
                return Ok(found);
            }
            let next = or_drop!(self.argument(input), found);
            found = pushed(self.alloc, found, next)?;
        }
        Ok(found)
    }

    fn arguments(&self, input: &mut Cursor<'_>, from: Pos) -> Result<Suffix, Stop>
        requires { Nests self.now.more (F.pre self.now.inside) (F.post self.now.inside) }
        ensures reads { Reads (spec.arguments self.now.more (inside self.now.more) from input.old) result input.new }
        ensures keeps { Keeps input.old input.new }
    {
        let first = self.expr(input, Within::Assignment)?;
        let rest = or_drop!(self.more_arguments(input), first);
        let to = or_drop!(input.expect(Punct::RightParen), first, rest);
        Ok(Suffix::CallWith(from, first, rest, to))
    }

    #[tactic(auto, unfolding(c_grammar::specs::Read::Expressions::call))]
    fn call(&self, input: &mut Cursor<'_>) -> Result<Suffix, Stop>
        requires { Nests self.now.more (F.pre self.now.inside) (F.post self.now.inside) }
        ensures reads { Reads (spec.call self.now.more (inside self.now.more) input.old) result input.new }
        ensures keeps { Keeps input.old input.new }
    {
        let from = input.opening(self.more, Punct::LeftParen)?;
        if input.sees(Punct::RightParen) {
            let to = input.expect(Punct::RightParen)?;
            return Ok(Suffix::Call(from, to));
        }
        self.arguments(input, from)
    }

    /// What stands behind a postfix expression's operand (C11 6.5.2).
    #[tactic(auto, unfolding(c_grammar::specs::Read::Expressions::one_suffix))]
    fn suffix(&self, input: &mut Cursor<'_>) -> Result<Suffix, Stop>
        requires { Nests self.now.more (F.pre self.now.inside) (F.post self.now.inside) }
        ensures reads { Reads (spec.one_suffix self.now.more (inside self.now.more) input.old) result input.new }
        ensures keeps { Keeps input.old input.new }
    {
        if input.sees(Punct::LeftBracket) {
            return self.index(input);
        }
        if input.sees(Punct::LeftParen) {
            return self.call(input);
        }
        if input.sees(Punct::Dot) {
            return self.dot(input);
        }
        if input.sees(Punct::Arrow) {
            return self.arrow(input);
        }
        if input.sees(Punct::Increment) {
            return self.increment(input);
        }
        self.decrement(input)
    }

    fn suffixes(&self, input: &mut Cursor<'_>) -> Result<Items<Suffix>, Stop>
        requires { Nests self.now.more (F.pre self.now.inside) (F.post self.now.inside) }
        ensures reads { Reads (parts.suffixes self.now.more (inside self.now.more) input.old) result input.new }
        ensures keeps { Keeps input.old input.new }
    {
        let mut found = Items::new(self.alloc);
        for _turn in 0..input.left() {
            if !input.goes(Production::Postfix) {
                return Ok(found);
            }
            let next = or_drop!(self.suffix(input), found);
            found = pushed(self.alloc, found, next)?;
        }
        Ok(found)
    }

    /// A postfix expression (C11 6.5.2).
    #[tactic(auto, unfolding(c_grammar::specs::Read::Expressions::postfixed, crate::specs::Parts::suffixes))]
    fn postfixed(&self, input: &mut Cursor<'_>) -> Result<Expr, Stop>
        requires { Nests self.now.more (F.pre self.now.inside) (F.post self.now.inside) }
        ensures reads { Reads (spec.postfixed self.now.more (inside self.now.more) input.old) result input.new }
        ensures keeps { Keeps input.old input.new }
    {
        let first = self.primary(input)?;
        let rest = or_drop!(self.suffixes(input), first);
        with_suffixes(self.alloc, first, rest)
    }

    /// `(` type name `)`
    #[tactic(auto, unfolding(c_grammar::specs::Read::Expressions::cast_prefix))]
    fn cast_prefix(&self, input: &mut Cursor<'_>) -> Result<Prefix, Stop>
        requires { Nests self.now.more (F.pre self.now.inside) (F.post self.now.inside) }
        ensures reads { Reads (spec.cast_prefix self.now.more (inside self.now.more) input.old) result input.new }
        ensures keeps { Keeps input.old input.new }
    {
        let from = input.opening(self.more, Punct::LeftParen)?;
        let name = self.type_name(input)?;
        let to = or_drop!(input.expect(Punct::RightParen), name);
        Ok(Prefix::Cast(from, name, to))
    }

    #[tactic(auto, unfolding(c_grammar::specs::Read::Expressions::one_prefix))]
    fn prefix(&self, input: &mut Cursor<'_>) -> Result<Prefix, Stop>
        requires { Nests self.now.more (F.pre self.now.inside) (F.post self.now.inside) }
        ensures reads { Reads (spec.one_prefix self.now.more (inside self.now.more) input.old) result input.new }
        ensures keeps { Keeps input.old input.new }
    {
        if input.sees(Punct::LeftParen) {
            return self.cast_prefix(input);
        }
        plain_prefix(input)
    }

    fn run(&self, input: &mut Cursor<'_>) -> Result<Items<Prefix>, Stop>
        requires { Nests self.now.more (F.pre self.now.inside) (F.post self.now.inside) }
        ensures reads { Reads (parts.run self.now.more (inside self.now.more) input.old) result input.new }
        ensures keeps { Keeps input.old input.new }
    {
        let mut found = Items::new(self.alloc);
        let mut tight = false;
        for _turn in 0..input.left() {
            if !input.goes_prefix(tight) {
                return Ok(found);
            }
            let next = or_drop!(self.prefix(input), found);
            tight = ties(&next);
            found = pushed(self.alloc, found, next)?;
        }
        Ok(found)
    }

    /// `sizeof` `(` type name `)` (C11 6.5.3.4)
    #[tactic(auto, unfolding(c_grammar::specs::Read::Expressions::sizeof_type))]
    fn sizeof_type(&self, input: &mut Cursor<'_>) -> Result<Expr, Stop>
        requires { Nests self.now.more (F.pre self.now.inside) (F.post self.now.inside) }
        ensures reads { Reads (spec.sizeof_type self.now.more (inside self.now.more) input.old) result input.new }
        ensures keeps { Keeps input.old input.new }
    {
        let at = sizeof_word(input)?;
        let from = input.opening(self.more, Punct::LeftParen)?;
        let name = boxed(self.alloc, self.type_name(input)?)?;
        let to = or_drop!(input.expect(Punct::RightParen), name);
        Ok(Expr::SizeofType(at, from, name, to))
    }

    /// What may stand behind a run of prefixes.
    #[tactic(auto, unfolding(c_grammar::specs::Read::Expressions::prefixed))]
    fn prefixed(&self, input: &mut Cursor<'_>) -> Result<Expr, Stop>
        requires { Nests self.now.more (F.pre self.now.inside) (F.post self.now.inside) }
        ensures reads { Reads (spec.prefixed self.now.more (inside self.now.more) input.old) result input.new }
        ensures keeps { Keeps input.old input.new }
    {
        if is_sizeof(input.kind()) {
            return self.sizeof_type(input);
        }
        self.postfixed(input)
    }

    /// A cast expression (C11 6.5.4).
    #[tactic(auto, unfolding(c_grammar::specs::Read::Expressions::cast, crate::specs::Parts::run))]
    pub fn cast(&self, input: &mut Cursor<'_>) -> Result<Expr, Stop>
        requires { Nests self.now.more (F.pre self.now.inside) (F.post self.now.inside) }
        ensures reads { Reads (spec.cast self.now.more (inside self.now.more) input.old) result input.new }
        ensures keeps { Keeps input.old input.new }
    {
        let run = self.run(input)?;
        let operand = or_drop!(self.prefixed(input), run);
        with_run(self.alloc, run, operand)
    }
}
