//! The tokens that are left, and the names that are visible.
//! It tells what comes next, takes single tokens, and opens and leaves scopes.

ghost use Rattle.std.specs.Prelude.{◌≡◌, ℕ, ◌≤◌, length, take, MatchResult, [], ◌∷◌};
ghost use Rattle.std.specs.Option.{option_copied};
ghost use Rattle.scope_map.specs.Scopes.{Marked};
ghost use Rattle.c_tree.specs.Levels.Names.{Names, is_typedef_name};
ghost use Rattle.c_grammar.specs.Input as spec;
ghost use Rattle.c_grammar.specs.Read.Inner as inner;
ghost use Rattle.c_grammar.specs.Read.Expressions as expressions;
ghost use Rattle.c_expr_parser.specs.Numbers.{number};
ghost use Rattle.c_expr_parser.specs.Reads.{Reads, Keeps, next_place};
ghost use Rattle.c_expr_parser.specs.declared.fault.Stop.TheVariants as stop;

use crate::fault::Stop;
use crate::memory::copied;
use crate::production::{Production, joined_by, number_of};
use crate::words::{begins_mark, is_mark, is_sizeof, word_begins};
use c_tree::{Identifier, Pos, Punct, Token, TokenKind};
use scope_map::ScopeMap;
use std::alloc::Global;
use std::marker::Model;
use word_ops::Text;

/// The tokens that are left, and the names that are visible, each with whether it is a typedef name.
#[derive(Drop)]
pub struct Cursor<'a> {
    names: ScopeMap<Text, bool>,
    rest: &'a [Token],
}

impl<'a> Model for Cursor<'a> {
    ghost use Rattle.c_grammar.specs.Input.{State};

    ghost Value = { State };

    ghost view = { λ c. (c.names, c.rest.now) };
}

impl<'a> Cursor<'a> {
    /// A cursor before the first of these tokens.
    pub fn new(names: ScopeMap<Text, bool>, rest: &'a [Token]) -> Cursor<'a>
        ensures { result ≡ (names, rest.now) }
    {
        Cursor { names, rest }
    }

    /// How many tokens are left.
    pub fn left(&self) -> usize
        ensures { result ≡ length self.now.1 }
    {
        self.rest.len()
    }

    /// The names that are visible.
    pub fn into_names(self) -> ScopeMap<Text, bool>
        ensures { result ≡ self.entry.0 }
    {
        self.names
    }

    /// Where the next token stands.
    pub fn place(&self) -> Option<Pos>
        ensures { result ≡ next_place self.now.1 }
    {
        match self.rest {
            [] => None,
            [first, ..] => Some(first.place),
        }
    }

    /// What the next token is.
    #[tactic(auto, unfolding(c_grammar::specs::Input::peek))]
    pub fn kind(&self) -> Option<&'a TokenKind>
        ensures { option_copied result ≡ spec.peek self.now.1 }
    {
        match self.rest {
            [] => None,
            [first, ..] => Some(&first.kind),
        }
    }

    /// What the token behind the next one is.
    #[tactic(auto, unfolding(c_grammar::specs::Input::peek, c_grammar::specs::Input::behind))]
    pub fn second(&self) -> Option<&'a TokenKind>
        ensures { option_copied result ≡ spec.peek (spec.behind self.now.1) }
    {
        match self.rest {
            [_, second, ..] => Some(&second.kind),
            _ => None,
        }
    }

    /// What the third token is.
    #[tactic(auto, unfolding(c_grammar::specs::Input::peek, c_grammar::specs::Input::behind))]
    pub fn third(&self) -> Option<&'a TokenKind>
        ensures { option_copied result ≡ spec.peek (spec.behind (spec.behind self.now.1)) }
    {
        match self.rest {
            [_, _, third, ..] => Some(&third.kind),
            _ => None,
        }
    }

    /// Whether the next token is this punctuator.
    pub fn sees(&self, op: Punct) -> bool
        ensures { result ≡ spec.sees op self.now }
    {
        is_mark(self.kind(), op)
    }

    // The production that goes on with the next token.
    fn joined(&self) -> Production
        ensures { number result ≡ spec.joins_with (spec.peek self.now.1) }
    {
        match self.kind() {
            Some(TokenKind::Punct(op)) => joined_by(*op),
            _ => Production::Nothing,
        }
    }

    /// Whether the next token goes on with this production.
    pub fn goes(&self, production: Production) -> bool
        ensures { result ≡ spec.goes (number production) self.now }
    {
        number_of(self.joined()) == number_of(production)
    }

    /// Whether the innermost visible declaration of the name is a typedef.
    pub fn is_typedef(&self, text: &Text) -> bool
        ensures { result ≡ is_typedef_name self.now.0 text.now }
    {
        self.names.get(text).copied().unwrap_or(false)
    }

    /// Whether a token begins a specifier, where `typed` tells whether one before it named a type.
    pub fn begins_specifier(
        &self,
        with_storage: bool,
        typed: bool,
        kind: Option<&TokenKind>,
    ) -> bool
        ensures { result ≡ inner.begins_specifier with_storage typed self.now.0 (option_copied kind.entry) }
    {
        match kind {
            Some(TokenKind::Keyword(word)) => word_begins(with_storage, *word),
            Some(TokenKind::Name(text)) => !typed && self.is_typedef(text),
            _ => false,
        }
    }

    /// Whether a token begins a type name.
    pub fn begins_type(&self, kind: Option<&TokenKind>) -> bool
        ensures { result ≡ inner.begins_type self.now.0 (option_copied kind.entry) }
    {
        self.begins_specifier(false, false, kind)
    }

    /// Whether a token behind `(` makes that the bracket of parameters.
    pub fn begins_parameters(&self, kind: Option<&TokenKind>) -> bool
        ensures { result ≡ inner.begins_parameters self.now.0 (option_copied kind.entry) }
    {
        is_mark(kind, Punct::RightParen) || self.begins_specifier(true, false, kind)
    }

    /// `(` and a token that begins a type name.
    #[tactic(auto, unfolding(c_grammar::specs::Read::Expressions::sees_cast))]
    pub fn sees_cast(&self) -> bool
        ensures { result ≡ expressions.sees_cast self.now }
    {
        self.sees(Punct::LeftParen) && self.begins_type(self.second())
    }

    /// `sizeof`, `(` and a token that begins a type name.
    #[tactic(auto, unfolding(c_grammar::specs::Read::Expressions::sees_sizeof_type, c_grammar::specs::Read::Expressions::sees_cast))]
    pub fn sees_sizeof_type(&self) -> bool
        ensures { result ≡ expressions.sees_sizeof_type self.now }
    {
        is_sizeof(self.kind())
            && is_mark(self.second(), Punct::LeftParen)
            && self.begins_type(self.third())
    }

    /// A prefix comes next. None that is `(` type name `)` may stand behind `++`, `--` or `sizeof`.
    #[tactic(auto, unfolding(c_grammar::specs::Read::Expressions::goes_prefix))]
    pub fn goes_prefix(&self, tight: bool) -> bool
        ensures { result ≡ expressions.goes_prefix tight self.now }
    {
        begins_mark(self.kind())
            || (is_sizeof(self.kind()) && !self.sees_sizeof_type())
            || (!tight && self.sees_cast())
    }

    /// The next token, which stays the next.
    #[tactic(auto, unfolding(c_grammar::specs::Input::behind))]
    pub fn next_token(&self) -> Result<&'a Token, Stop>
        ensures { MatchResult result (λ t. self.now.1 ≡ t.now ∷ spec.behind self.now.1) (λ e. (self.now.1 ≡ []) × (e ≡ stop.Syntax)) }
    {
        match self.rest {
            [] => Err(Stop::Syntax),
            [first, ..] => Ok(first),
        }
    }

    /// Goes behind the next token.
    #[tactic(auto, unfolding(c_grammar::specs::Input::behind))]
    pub fn advance(&mut self)
        ensures { self.new ≡ (self.old.0, spec.behind self.old.1) }
    {
        if let [_, rest @ ..] = self.rest {
            self.rest = rest;
        }
    }

    /// The place of the next token, which is this punctuator.
    #[tactic(auto, unfolding(c_grammar::specs::Input::one, c_grammar::specs::Input::behind))]
    pub fn expect(&mut self, op: Punct) -> Result<Pos, Stop>
        ensures reads { Reads (spec.expect op self.old) result self.new }
        ensures keeps { Keeps self.old self.new }
    {
        let token = self.next_token()?;
        if !is_mark(Some(&token.kind), op) {
            return Err(Stop::Syntax);
        }
        self.advance();
        Ok(token.place)
    }

    /// The place of the next token, which is this bracket or `?`, where so many more may be opened.
    #[tactic(auto, unfolding(c_grammar::specs::Input::opening))]
    pub fn opening(&mut self, more: usize, op: Punct) -> Result<Pos, Stop>
        ensures reads { Reads (spec.opening more op self.old) result self.new }
        ensures keeps { Keeps self.old self.new }
    {
        if self.sees(op) && more == 0 {
            return Err(Stop::Nest);
        }
        self.expect(op)
    }

    /// A name of any kind.
    #[tactic(auto, unfolding(c_grammar::specs::Input::one, c_grammar::specs::Input::behind))]
    pub fn identifier(&mut self, alloc: Global) -> Result<Identifier, Stop>
        ensures reads { Reads (spec.identifier self.old) result self.new }
        ensures keeps { Keeps self.old self.new }
    {
        let token = self.next_token()?;
        let TokenKind::Name(text) = &token.kind else {
            return Err(Stop::Syntax);
        };
        let text = copied(alloc, text)?;
        self.advance();
        Ok(Identifier {
            text,
            place: token.place,
        })
    }

    /// Makes a name visible from here on.
    pub fn declare(&mut self, name: Text, is_typedef: bool) -> Result<(), Stop>
        ensures reads { Reads (spec.declare ((name, is_typedef) ∷ []) self.old) result self.new }
        ensures keeps { Keeps self.old self.new }
    {
        self.names.insert(name, is_typedef)?;
        Ok(())
    }

    /// Marks the present scope.
    pub fn mark(&self) -> usize
        ensures { Marked self.now.0 result self.now.0 }
    {
        self.names.mark()
    }

    /// Goes back to the scope that was marked.
    pub fn leave(&mut self, mark: usize)
        requires { mark ≤ length self.old.0 }
        ensures tokens { self.new.1 ≡ self.old.1 }
        ensures back { (at : Names) → Marked self.old.0 mark at → self.new.0 ≡ at }
        ensures older { (older : ℕ) (at : Names) → older ≤ mark → Marked self.old.0 older at → Marked self.new.0 older at }
    {
        self.names.leave(mark);
    }
}
