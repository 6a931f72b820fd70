//! Declarators (C11 6.7.6, 6.7.7).
//! Pointers, what stands in the middle, and the arrays and parameter lists behind it.

ghost use Rattle.std.specs.Prelude.{◌≡◌, [], ◌∷◌};
ghost use Rattle.std.specs.Option.{option_copied};
ghost use Rattle.c_grammar.specs.Input as state;
ghost use Rattle.c_grammar.specs.Read.Depth.{inside};
ghost use Rattle.c_grammar.specs.Read.Declarators as spec;
ghost use Rattle.c_expr_parser.specs.Numbers.{use_of};
ghost use Rattle.c_expr_parser.specs.Parts as parts;
ghost use Rattle.c_expr_parser.specs.Reads.{Reads, Keeps};
ghost use Rattle.c_expr_parser.specs.Nests.{Nests};

use crate::cursor::Cursor;
use crate::fault::Stop;
use crate::grammar::Grammar;
use crate::memory::{alone, boxed, copied, pushed};
use crate::nodes::{declared_name, have_typedef, is_nothing, name_type};
use crate::wanted::{Found, Use, Wanted, Within};
use crate::words::{is_const, is_mark, is_void};
use c_tree::{
    Declarator, DeclaratorSuffix, Direct, Keyword, Parameter, Pointer, Pos, Punct, Specifiers,
    TokenKind,
};
use std::alloc::Global;
use word_ops::{Items, Text};

#[tactic(auto, unfolding(c_grammar::specs::Input::one, c_grammar::specs::Input::behind))]
fn const_word(input: &mut Cursor<'_>) -> Result<Pos, Stop>
    ensures reads { Reads (state.one spec.const_at input.old) result input.new }
    ensures keeps { Keeps input.old input.new }
{
    let token = input.next_token()?;
    let TokenKind::Keyword(Keyword::Const) = token.kind else {
        return Err(Stop::Syntax);
    };
    input.advance();
    Ok(token.place)
}

#[tactic(auto, unfolding(c_grammar::specs::Input::one, c_grammar::specs::Input::behind))]
fn void_word(input: &mut Cursor<'_>) -> Result<Pos, Stop>
    ensures reads { Reads (state.one spec.void_at input.old) result input.new }
    ensures keeps { Keeps input.old input.new }
{
    let token = input.next_token()?;
    let TokenKind::Keyword(Keyword::Void) = token.kind else {
        return Err(Stop::Syntax);
    };
    input.advance();
    Ok(token.place)
}

fn constants(alloc: Global, input: &mut Cursor<'_>) -> Result<Items<Pos>, Stop>
    ensures reads { Reads (parts.constants input.old) result input.new }
    ensures keeps { Keeps input.old input.new }
{
    let mut found = Items::new(alloc);
    for _turn in 0..input.left() {
        if !is_const(input.kind()) {
            return Ok(found);
        }
        let next = or_drop!(const_word(input), found);
        found = pushed(alloc, found, next)?;
    }
    Ok(found)
}

/// `*` and the words `const` behind it (C11 6.7.6.1).
#[tactic(auto, unfolding(c_grammar::specs::Read::Declarators::pointer, crate::specs::Parts::constants))]
fn pointer(alloc: Global, input: &mut Cursor<'_>) -> Result<Pointer, Stop>
    ensures reads { Reads (spec.pointer input.old) result input.new }
    ensures keeps { Keeps input.old input.new }
{
    let star = input.expect(Punct::Star)?;
    let constants = constants(alloc, input)?;
    Ok(Pointer { star, constants })
}

fn pointers(alloc: Global, input: &mut Cursor<'_>) -> Result<Items<Pointer>, Stop>
    ensures reads { Reads (spec.pointers input.old) result input.new }
    ensures keeps { Keeps input.old input.new }
{
    let mut found = Items::new(alloc);
    for _turn in 0..input.left() {
        if !input.sees(Punct::Star) {
            return Ok(found);
        }
        let next = or_drop!(pointer(alloc, input), found);
        found = pushed(alloc, found, next)?;
    }
    Ok(found)
}

// The next token is the name of the declarator. A typedef name is declared anew only behind specifiers that name a type.
fn takes_name(input: &Cursor<'_>, purpose: Use, typed: bool) -> bool
    ensures { result ≡ spec.takes_name (use_of purpose) typed input.now.0 (state.peek input.now.1) }
{
    match purpose {
        Use::Abstract => false,
        Use::Declaring | Use::Parameter => match input.kind() {
            Some(TokenKind::Name(text)) => typed || !input.is_typedef(text),
            _ => false,
        },
    }
}

// `(` comes next and opens a declarator and no parameters, by the token behind it.
fn opens_declarator(input: &Cursor<'_>, purpose: Use) -> bool
    ensures { result ≡ parts.opens_declarator (use_of purpose) input.now }
{
    if !input.sees(Punct::LeftParen) {
        return false;
    }
    match purpose {
        Use::Declaring => true,
        Use::Abstract | Use::Parameter => !input.begins_parameters(input.second()),
    }
}

// `[` or `(` comes next.
fn sees_suffix(input: &Cursor<'_>) -> bool
    ensures { result ≡ parts.goes_declarator_suffix input.now }
{
    input.sees(Punct::LeftBracket) || input.sees(Punct::LeftParen)
}

// `(` `void` `)` comes next, behind `(`.
fn sees_void(input: &Cursor<'_>) -> bool
    ensures { result ≡ spec.sees_void input.now }
{
    is_void(input.kind()) && is_mark(input.second(), Punct::RightParen)
}

// Makes a copy of the name visible.
fn declare(alloc: Global, input: &mut Cursor<'_>, name: &Text, is_typedef: bool) -> Result<(), Stop>
    ensures reads { Reads (state.declare ((name.now, is_typedef) ∷ []) input.old) result input.new }
    ensures keeps { Keeps input.old input.new }
{
    input.declare(copied(alloc, name)?, is_typedef)
}

#[tactic(auto, unfolding(c_grammar::specs::Input::one))]
fn no_name(purpose: Use) -> Result<Direct, Stop>
    ensures { (i : state.State) → Reads (spec.no_name (use_of purpose) i) result i }
{
    match purpose {
        Use::Declaring => Err(Stop::Syntax),
        Use::Abstract | Use::Parameter => Ok(Direct::Nothing),
    }
}

impl<F: Fn(Global, &mut Cursor<'_>, usize, Wanted) -> Result<Found, Stop>> Grammar<F> {
    /// `(` declarator `)`, where that has a token.
    #[tactic(auto, unfolding(c_grammar::specs::Read::Declarators::grouped))]
    fn grouped(&self, input: &mut Cursor<'_>, purpose: Use, typed: bool) -> Result<Direct, Stop>
        requires { Nests self.now.more (F.pre self.now.inside) (F.post self.now.inside) }
        ensures reads { Reads (spec.grouped self.now.more (inside self.now.more) (use_of purpose) typed input.old) result input.new }
        ensures keeps { Keeps input.old input.new }
    {
        let from = input.opening(self.more, Punct::LeftParen)?;
        let inner = self.nested_declarator(input, purpose, typed)?;
        if is_nothing(&inner) {
            drop(inner);
            return Err(Stop::Syntax);
        }
        let inner = boxed(self.alloc, inner)?;
        let to = or_drop!(input.expect(Punct::RightParen), inner);
        Ok(Direct::Grouped(from, inner, to))
    }

    /// What stands in the middle of a declarator.
    #[tactic(auto, unfolding(c_grammar::specs::Read::Declarators::middle))]
    fn middle(&self, input: &mut Cursor<'_>, purpose: Use, typed: bool) -> Result<Direct, Stop>
        requires { Nests self.now.more (F.pre self.now.inside) (F.post self.now.inside) }
        ensures reads { Reads (spec.middle self.now.more (inside self.now.more) (use_of purpose) typed input.old) result input.new }
        ensures keeps { Keeps input.old input.new }
    {
        if opens_declarator(input, purpose) {
            return self.grouped(input, purpose, typed);
        }
        if takes_name(input, purpose, typed) {
            return Ok(Direct::Named(input.identifier(self.alloc)?));
        }
        no_name(purpose)
    }

    /// `[` `]`, or `[` size `]` (C11 6.7.6.2)
    #[tactic(auto, unfolding(c_grammar::specs::Read::Declarators::array))]
    fn array(&self, input: &mut Cursor<'_>) -> Result<DeclaratorSuffix, Stop>
        requires { Nests self.now.more (F.pre self.now.inside) (F.post self.now.inside) }
        ensures reads { Reads (spec.array self.now.more (inside self.now.more) input.old) result input.new }
        ensures keeps { Keeps input.old input.new }
    {
        let from = input.opening(self.more, Punct::LeftBracket)?;
        if input.sees(Punct::RightBracket) {
            let to = input.expect(Punct::RightBracket)?;
            return Ok(DeclaratorSuffix::Array(from, to));
        }
        let size = self.expr(input, Within::Conditional)?;
        let to = or_drop!(input.expect(Punct::RightBracket), size);
        Ok(DeclaratorSuffix::ArrayOf(from, size, to))
    }

    // The declarator of a parameter. What it declares is visible from its end.
    fn parameter_behind(
        &self,
        input: &mut Cursor<'_>,
        comma: Option<Pos>,
        specifiers: Specifiers,
    ) -> Result<Parameter, Stop>
        requires { Nests self.now.more (F.pre self.now.inside) (F.post self.now.inside) }
        ensures reads { Reads (spec.parameter_behind self.now.more (inside self.now.more) comma specifiers input.old) result input.new }
        ensures keeps { Keeps input.old input.new }
    {
        let typed = name_type(specifiers.as_slice());
        let declarator = or_drop!(
            self.nested_declarator(input, Use::Parameter, typed),
            specifiers
        );
        if let Some(name) = declared_name(&declarator) {
            let is_typedef = have_typedef(specifiers.as_slice());
            or_drop!(
                declare(self.alloc, input, name, is_typedef),
                specifiers,
                declarator
            );
        }
        Ok(Parameter {
            comma,
            specifiers,
            declarator,
        })
    }

    /// A parameter (C11 6.7.6.3).
    #[tactic(auto, unfolding(c_grammar::specs::Read::Declarators::parameter))]
    fn parameter(&self, input: &mut Cursor<'_>, comma: Option<Pos>) -> Result<Parameter, Stop>
        requires { Nests self.now.more (F.pre self.now.inside) (F.post self.now.inside) }
        ensures reads { Reads (spec.parameter self.now.more (inside self.now.more) comma input.old) result input.new }
        ensures keeps { Keeps input.old input.new }
    {
        let specifiers = self.nested_specifiers(input, true)?;
        self.parameter_behind(input, comma, specifiers)
    }

    #[tactic(auto, unfolding(c_grammar::specs::Read::Declarators::next_parameter))]
    fn next_parameter(&self, input: &mut Cursor<'_>) -> Result<Parameter, Stop>
        requires { Nests self.now.more (F.pre self.now.inside) (F.post self.now.inside) }
        ensures reads { Reads (spec.next_parameter self.now.more (inside self.now.more) input.old) result input.new }
        ensures keeps { Keeps input.old input.new }
    {
        let comma = input.expect(Punct::Comma)?;
        self.parameter(input, Some(comma))
    }

    #[tactic(auto, unfolding(crate::specs::Parts::parameter_list))]
    fn parameter_list(&self, input: &mut Cursor<'_>) -> Result<Items<Parameter>, Stop>
        requires { Nests self.now.more (F.pre self.now.inside) (F.post self.now.inside) }
        ensures reads { Reads (parts.parameter_list self.now.more (inside self.now.more) input.old) result input.new }
        ensures keeps { Keeps input.old input.new }
    {
        let first = self.parameter(input, None)?;
        let mut found = alone(self.alloc, first)?;
        for _turn in 0..input.left() {
            if !input.sees(Punct::Comma) {
                return Ok(found);
            }
            let next = or_drop!(self.next_parameter(input), found);
            found = pushed(self.alloc, found, next)?;
        }
        Ok(found)
    }

    // What the parameters declare ends with their list.
    #[tactic(auto, using(crate::proofs::Firsts::some_parameters_are, crate::proofs::Marks::mark_is_in, crate::proofs::Marks::kept_back))]
    fn some_parameters(&self, input: &mut Cursor<'_>, from: Pos) -> Result<DeclaratorSuffix, Stop>
        requires { Nests self.now.more (F.pre self.now.inside) (F.post self.now.inside) }
        ensures reads { Reads (spec.some_parameters self.now.more (inside self.now.more) from input.old) result input.new }
        ensures keeps { Keeps input.old input.new }
    {
        let scope = input.mark();
        let parameters = self.parameter_list(input)?;
        let to = or_drop!(input.expect(Punct::RightParen), parameters);
        input.leave(scope);
        Ok(DeclaratorSuffix::Parameters(from, parameters, to))
    }

    /// `(` parameters `)` (C11 6.7.6.3)
    #[tactic(auto, unfolding(c_grammar::specs::Read::Declarators::parameters))]
    fn parameters(&self, input: &mut Cursor<'_>) -> Result<DeclaratorSuffix, Stop>
        requires { Nests self.now.more (F.pre self.now.inside) (F.post self.now.inside) }
        ensures reads { Reads (spec.parameters self.now.more (inside self.now.more) input.old) result input.new }
        ensures keeps { Keeps input.old input.new }
    {
        let from = input.opening(self.more, Punct::LeftParen)?;
        if input.sees(Punct::RightParen) {
            let to = input.expect(Punct::RightParen)?;
            return Ok(DeclaratorSuffix::Empty(from, to));
        }
        if sees_void(input) {
            let at = void_word(input)?;
            let to = input.expect(Punct::RightParen)?;
            return Ok(DeclaratorSuffix::Void(from, at, to));
        }
        self.some_parameters(input, from)
    }

    #[tactic(auto, unfolding(c_grammar::specs::Read::Declarators::one_suffix))]
    fn declarator_suffix(&self, input: &mut Cursor<'_>) -> Result<DeclaratorSuffix, Stop>
        requires { Nests self.now.more (F.pre self.now.inside) (F.post self.now.inside) }
        ensures reads { Reads (spec.one_suffix self.now.more (inside self.now.more) input.old) result input.new }
        ensures keeps { Keeps input.old input.new }
    {
        if input.sees(Punct::LeftBracket) {
            return self.array(input);
        }
        self.parameters(input)
    }

    fn declarator_suffixes(&self, input: &mut Cursor<'_>) -> Result<Items<DeclaratorSuffix>, Stop>
        requires { Nests self.now.more (F.pre self.now.inside) (F.post self.now.inside) }
        ensures reads { Reads (parts.declarator_suffixes self.now.more (inside self.now.more) input.old) result input.new }
        ensures keeps { Keeps input.old input.new }
    {
        let mut found = Items::new(self.alloc);
        for _turn in 0..input.left() {
            if !sees_suffix(input) {
                return Ok(found);
            }
            let next = or_drop!(self.declarator_suffix(input), found);
            found = pushed(self.alloc, found, next)?;
        }
        Ok(found)
    }

    /// A declarator for this use, behind specifiers that name a type or do not.
    #[tactic(auto, unfolding(c_grammar::specs::Read::Declarators::declarator, crate::specs::Parts::declarator_suffixes))]
    pub fn declarator(
        &self,
        input: &mut Cursor<'_>,
        purpose: Use,
        typed: bool,
    ) -> Result<Declarator, Stop>
        requires { Nests self.now.more (F.pre self.now.inside) (F.post self.now.inside) }
        ensures reads { Reads (spec.declarator self.now.more (inside self.now.more) (use_of purpose) typed input.old) result input.new }
        ensures keeps { Keeps input.old input.new }
    {
        let pointers = pointers(self.alloc, input)?;
        let direct = or_drop!(self.middle(input, purpose, typed), pointers);
        let suffixes = or_drop!(self.declarator_suffixes(input), pointers, direct);
        Ok(Declarator {
            pointers,
            direct,
            suffixes,
        })
    }
}
