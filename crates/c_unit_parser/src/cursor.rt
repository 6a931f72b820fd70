//! The tokens that are left, and the names that are visible.
//! It tells what comes next, takes single tokens, calls the parser of expressions, and opens and leaves scopes.

ghost use Rattle.std.specs.Prelude.{◌≡◌, ℕ, ◌≤◌, true, false, length, MatchResult, OnOk, [], ◌∷◌};
ghost use Rattle.std.specs.Option.{option_copied};
ghost use Rattle.scope_map.specs.Scopes.{Marked};
ghost use Rattle.c_tree.specs.Levelled.{nesting_limit};
ghost use Rattle.c_tree.specs.Levels.Names.{Names, is_typedef_name};
ghost use Rattle.c_tree.specs.Levels.Productions as production;
ghost use Rattle.c_tree.specs.Levels.Facts as facts;
ghost use Rattle.c_grammar.specs.Input as spec;
ghost use Rattle.c_grammar.specs.Read.Inner as inner;
ghost use Rattle.c_grammar.specs.Read.Depth as grammar;
ghost use Rattle.c_expr_parser.specs.declared.fault.ParseFault.TheVariants as fault;
ghost use Rattle.c_expr_parser.specs.Reads.{Keeps, next_place};
ghost use Rattle.c_expr_parser.specs.Calls.{place_or};
ghost use Rattle.c_unit_grammar.specs.Read.Words as words;
ghost use Rattle.c_unit_parser.specs.Kinds.{of_item};
ghost use Rattle.c_unit_parser.specs.Beside.{listed};
ghost use Rattle.c_unit_parser.specs.Reads.{Reads, placed};

use crate::declares::{declare, parameters};
use crate::words::{ItemKind, is_word, label_kind, mark_begins_statement, word_begins_statement};
use c_expr_parser::{DEEPEST, Names, ParseFault, Use, is_mark, word_begins};
use c_tree::{
    Declarator, Expr, Keyword, Parameter, Pos, Punct, Specifiers, Token, TokenKind, Tokens,
};
use scope_map::ScopeMap;
use std::alloc::Global;
use std::marker::Model;
use word_ops::Text;

/// The tokens that are left, and the names that are visible, each with whether it is a typedef name.
#[derive(Drop)]
pub struct Cursor<'a> {
    names: Names,
    tokens: &'a Tokens,
    at: usize,
}

impl<'a> Model for Cursor<'a> {
    ghost use Rattle.std.specs.Prelude.{◌≤◌, length, drop};
    ghost use Rattle.c_unit_parser.specs.Reads.{Input};

    ghost Value = { Input };

    ghost view = { λ c. record { state = (c.names, drop c.at c.tokens.now.list); end = c.tokens.now.end } };

    ghost invariant = { λ c. c.at ≤ length c.tokens.now.list };
}

impl<'a> Cursor<'a> {
    /// All the tokens of a source, where no name is visible.
    pub fn new(alloc: Global, tokens: &'a Tokens) -> Cursor<'a>
        ensures { result ≡ record { state = ([], tokens.now.list); end = tokens.now.end } }
    {
        Cursor {
            names: ScopeMap::new(alloc),
            tokens,
            at: 0,
        }
    }

    fn rest(&self) -> &'a [Token]
        ensures { result.now ≡ self.now.state.1 }
    {
        &self.tokens.list.as_slice()[self.at..]
    }

    /// Where the source ends.
    fn end(&self) -> Pos
        ensures { result ≡ self.now.end }
    {
        self.tokens.end
    }

    /// How many tokens are left.
    pub fn left(&self) -> usize
        ensures { result ≡ length self.now.state.1 }
    {
        self.rest().len()
    }

    // Where the next token stands, or the source ends.
    fn place(&self) -> Pos
        ensures { result ≡ place_or (next_place self.now.state.1) self.now.end }
    {
        match self.rest() {
            [] => self.end(),
            [first, ..] => first.place,
        }
    }

    /// No sentence begins with the tokens up to the next one.
    pub fn syntax(&self) -> ParseFault
        ensures { result ≡ placed self.now.end (spec.Syntax, self.now.state.1) }
    {
        ParseFault::Syntax(self.place())
    }

    /// The next token would be nested too deeply.
    pub fn too_deep(&self) -> ParseFault
        ensures { result ≡ placed self.now.end (spec.Nest, self.now.state.1) }
    {
        ParseFault::Nest(self.place())
    }

    /// What the next token is.
    #[tactic(auto, unfolding(c_grammar::specs::Input::peek))]
    pub fn kind(&self) -> Option<&'a TokenKind>
        ensures { option_copied result ≡ spec.peek self.now.state.1 }
    {
        match self.rest() {
            [] => None,
            [first, ..] => Some(&first.kind),
        }
    }

    /// What the token behind the next one is.
    #[tactic(auto, unfolding(c_grammar::specs::Input::peek, c_grammar::specs::Input::behind))]
    pub fn second(&self) -> Option<&'a TokenKind>
        ensures { option_copied result ≡ spec.peek (spec.behind self.now.state.1) }
    {
        match self.rest() {
            [_, second, ..] => Some(&second.kind),
            _ => None,
        }
    }

    /// Whether the next token is this punctuator.
    pub fn sees(&self, op: Punct) -> bool
        ensures { result ≡ spec.sees op self.now.state }
    {
        is_mark(self.kind(), op)
    }

    /// Whether the next token is this keyword.
    pub fn sees_word(&self, word: Keyword) -> bool
        ensures { result ≡ words.sees_word word self.now.state }
    {
        is_word(self.kind(), word)
    }

    fn is_typedef(&self, text: &Text) -> bool
        ensures { result ≡ is_typedef_name self.now.state.0 text.now }
    {
        self.names.get(text).copied().unwrap_or(false)
    }

    /// Whether the next token begins specifiers, storage words among them (C11 6.7).
    pub fn begins_declaration(&self) -> bool
        ensures { result ≡ inner.begins_specifier true false self.now.state.0 (spec.peek self.now.state.1) }
    {
        match self.kind() {
            Some(TokenKind::Keyword(word)) => word_begins(true, *word),
            Some(TokenKind::Name(text)) => self.is_typedef(text),
            _ => false,
        }
    }

    /// The kind of item of a block that the next token begins, where labels may stand or not.
    ///
    /// What begins with a specifier is a declaration.
    pub fn item_kind(&self, labels: bool) -> ItemKind
        ensures { of_item result ≡ words.item_kind labels self.now.state.0 (spec.peek self.now.state.1) }
    {
        if self.begins_declaration() {
            return ItemKind::Declaration;
        }
        label_kind(labels, self.kind())
    }

    /// Whether the next token begins a statement that is no block.
    pub fn begins_statement(&self) -> bool
        ensures { result ≡ words.begins_statement self.now.state.0 (spec.peek self.now.state.1) }
    {
        match self.kind() {
            None => false,
            Some(TokenKind::Name(text)) => !self.is_typedef(text),
            Some(TokenKind::Keyword(word)) => word_begins_statement(*word),
            Some(TokenKind::Punct(op)) => mark_begins_statement(*op),
            Some(TokenKind::Number { .. } | TokenKind::Char(_) | TokenKind::Bytes(_)) => true,
        }
    }

    // The next token, which stays the next.
    #[tactic(auto, unfolding(c_grammar::specs::Input::behind))]
    fn next_token(&self) -> Result<&'a Token, ParseFault>
        ensures { MatchResult result (λ t. self.now.state.1 ≡ t.now ∷ spec.behind self.now.state.1) (λ e. (self.now.state.1 ≡ []) × (e ≡ fault.Syntax self.now.end)) }
    {
        match self.rest() {
            [] => Err(ParseFault::Syntax(self.end())),
            [first, ..] => Ok(first),
        }
    }

    // Goes behind the next token.
    #[tactic(auto, using(crate::proofs::Places::one_behind, crate::proofs::Places::at_the_end))]
    fn advance(&mut self)
        ensures { self.new ≡ record { state = (self.old.state.0, spec.behind self.old.state.1); end = self.old.end } }
    {
        if self.at < self.tokens.list.len() {
            self.at += 1;
        }
    }

    /// The place of the next token, which is this punctuator.
    #[tactic(auto, unfolding(c_grammar::specs::Input::one, c_grammar::specs::Input::behind))]
    pub fn expect(&mut self, op: Punct) -> Result<Pos, ParseFault>
        ensures reads { Reads (spec.expect op self.old.state) self.old.end result self.new }
        ensures keeps { OnOk result (Keeps self.old.state self.new.state) }
        ensures ends { self.new.end ≡ self.old.end }
    {
        let token = self.next_token()?;
        if !is_mark(Some(&token.kind), op) {
            return Err(ParseFault::Syntax(token.place));
        }
        self.advance();
        Ok(token.place)
    }

    /// The place of the next token, which is this keyword.
    #[tactic(auto, unfolding(c_grammar::specs::Input::one, c_grammar::specs::Input::behind))]
    pub fn expect_word(&mut self, word: Keyword) -> Result<Pos, ParseFault>
        ensures reads { Reads (words.expect_word word self.old.state) self.old.end result self.new }
        ensures keeps { OnOk result (Keeps self.old.state self.new.state) }
        ensures ends { self.new.end ≡ self.old.end }
    {
        let token = self.next_token()?;
        if !is_word(Some(&token.kind), word) {
            return Err(ParseFault::Syntax(token.place));
        }
        self.advance();
        Ok(token.place)
    }

    /// The place of the next token, which is this bracket, where so many more may be opened.
    #[tactic(auto, unfolding(c_grammar::specs::Input::opening))]
    pub fn opening(&mut self, more: u32, op: Punct) -> Result<Pos, ParseFault>
        ensures reads { Reads (spec.opening more op self.old.state) self.old.end result self.new }
        ensures keeps { OnOk result (Keeps self.old.state self.new.state) }
        ensures ends { self.new.end ≡ self.old.end }
    {
        if self.sees(op) && more == 0 {
            return Err(self.too_deep());
        }
        self.expect(op)
    }

    /// An expression (C11 6.5.17), where so many brackets may be opened.
    pub fn expression(&mut self, alloc: Global, more: u32) -> Result<Expr, ParseFault>
        requires { more ≤ nesting_limit }
        ensures reads { Reads (grammar.expression more production.comma self.old.state) self.old.end result self.new }
        ensures keeps { OnOk result (Keeps self.old.state self.new.state) }
        ensures ends { self.new.end ≡ self.old.end }
    {
        let depth = DEEPEST - more;
        let (tree, behind) = c_expr_parser::expression(
            alloc,
            self.tokens,
            self.at,
            &mut self.names,
            depth,
        )?;
        self.at = behind;
        Ok(tree)
    }

    /// An expression inside a bracket, where so many could be opened with that one.
    pub fn nested_expression(&mut self, alloc: Global, more: u32) -> Result<Expr, ParseFault>
        requires { more ≤ 257 }
        ensures reads { Reads ((grammar.inside more).expr production.comma self.old.state) self.old.end result self.new }
        ensures keeps { OnOk result (Keeps self.old.state self.new.state) }
        ensures ends { self.new.end ≡ self.old.end }
    {
        if more == 0 {
            return Err(self.too_deep());
        }
        self.expression(alloc, more - 1)
    }

    /// An assignment expression (C11 6.5.16), where so many brackets may be opened.
    pub fn assignment(&mut self, alloc: Global, more: u32) -> Result<Expr, ParseFault>
        requires { more ≤ nesting_limit }
        ensures reads { Reads (grammar.expression more production.assignment self.old.state) self.old.end result self.new }
        ensures keeps { OnOk result (Keeps self.old.state self.new.state) }
        ensures ends { self.new.end ≡ self.old.end }
    {
        let depth = DEEPEST - more;
        let (tree, behind) = c_expr_parser::assignment(
            alloc,
            self.tokens,
            self.at,
            &mut self.names,
            depth,
        )?;
        self.at = behind;
        Ok(tree)
    }

    /// A conditional expression (C11 6.5.15), where so many brackets may be opened.
    pub fn conditional(&mut self, alloc: Global, more: u32) -> Result<Expr, ParseFault>
        requires { more ≤ nesting_limit }
        ensures reads { Reads (grammar.expression more production.conditional self.old.state) self.old.end result self.new }
        ensures keeps { OnOk result (Keeps self.old.state self.new.state) }
        ensures ends { self.new.end ≡ self.old.end }
    {
        let depth = DEEPEST - more;
        let (tree, behind) = c_expr_parser::conditional(
            alloc,
            self.tokens,
            self.at,
            &mut self.names,
            depth,
        )?;
        self.at = behind;
        Ok(tree)
    }

    /// Specifiers (C11 6.7), where so many brackets may be opened.
    pub fn specifiers(&mut self, alloc: Global, more: u32) -> Result<Specifiers, ParseFault>
        requires { more ≤ nesting_limit }
        ensures reads { Reads (grammar.specifiers more true self.old.state) self.old.end result self.new }
        ensures keeps { OnOk result (Keeps self.old.state self.new.state) }
        ensures ends { self.new.end ≡ self.old.end }
    {
        let depth = DEEPEST - more;
        let (trees, behind) = c_expr_parser::specifiers(
            alloc,
            self.tokens,
            self.at,
            &mut self.names,
            depth,
            true,
        )?;
        self.at = behind;
        Ok(trees)
    }

    /// A declarator with a name (C11 6.7.6), behind specifiers that name a type or do not, where so many brackets may be
    /// opened.
    pub fn declarator(
        &mut self,
        alloc: Global,
        more: u32,
        typed: bool,
    ) -> Result<Declarator, ParseFault>
        requires { more ≤ nesting_limit }
        ensures reads { Reads (grammar.declarator more facts.Declaring typed self.old.state) self.old.end result self.new }
        ensures keeps { OnOk result (Keeps self.old.state self.new.state) }
        ensures ends { self.new.end ≡ self.old.end }
    {
        let depth = DEEPEST - more;
        let (tree, behind) = c_expr_parser::declarator(
            alloc,
            self.tokens,
            self.at,
            &mut self.names,
            depth,
            Use::Declaring,
            typed,
        )?;
        self.at = behind;
        Ok(tree)
    }

    /// Makes a name visible from here on.
    pub fn declare(
        &mut self,
        alloc: Global,
        name: &Text,
        is_typedef: bool,
    ) -> Result<(), ParseFault>
        ensures reads { Reads (spec.declare ((name.now, is_typedef) ∷ []) self.old.state) self.old.end result self.new }
        ensures keeps { OnOk result (Keeps self.old.state self.new.state) }
        ensures ends { self.new.end ≡ self.old.end }
    {
        match declare(alloc, &mut self.names, name, is_typedef) {
            Ok(()) => Ok(()),
            Err(_) => Err(ParseFault::Memory),
        }
    }

    /// Makes visible what the parameters declare.
    pub fn declare_parameters(&mut self, alloc: Global, all: &[Parameter]) -> Result<(), ParseFault>
        ensures reads { (names : Names) → Reads (spec.declare (listed all.now names) self.old.state) self.old.end result self.new }
        ensures keeps { OnOk result (Keeps self.old.state self.new.state) }
        ensures ends { self.new.end ≡ self.old.end }
    {
        match parameters(alloc, &mut self.names, all) {
            Ok(()) => Ok(()),
            Err(_) => Err(ParseFault::Memory),
        }
    }

    /// Marks the present scope.
    pub fn mark(&self) -> usize
        ensures { Marked self.now.state.0 result self.now.state.0 }
    {
        self.names.mark()
    }

    /// Goes back to the scope that was marked.
    pub fn leave(&mut self, mark: usize)
        requires { mark ≤ length self.old.state.0 }
        ensures tokens { self.new.state.1 ≡ self.old.state.1 }
        ensures back { (at : Names) → Marked self.old.state.0 mark at → self.new.state.0 ≡ at }
        ensures older { (older : ℕ) (at : Names) → older ≤ mark → Marked self.old.state.0 older at → Marked self.new.state.0 older at }
        ensures ends { self.new.end ≡ self.old.end }
    {
        self.names.leave(mark);
    }
}
