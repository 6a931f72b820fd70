//! Specifiers (C11 6.7.1 to 6.7.3).
//! Structs with their members and enums with their enumerators stand among them.

ghost use Rattle.std.specs.Prelude.{◌≡◌, ◌||◌};
ghost use Rattle.c_tree.specs.declared.token.Punct.TheVariants as p;
ghost use Rattle.c_tree.specs.declared.specifier.Enumerator.TheVariants as enumerator;
ghost use Rattle.c_grammar.specs.Input as state;
ghost use Rattle.c_grammar.specs.Read.Depth.{inside};
ghost use Rattle.c_grammar.specs.Read.Nodes as node;
ghost use Rattle.c_grammar.specs.Read.Specifiers as spec;
ghost use Rattle.c_expr_parser.specs.Parts as parts;
ghost use Rattle.c_expr_parser.specs.Reads.{Reads, Keeps};
ghost use Rattle.c_expr_parser.specs.Nests.{Nests};

use crate::cursor::Cursor;
use crate::fault::Stop;
use crate::grammar::Grammar;
use crate::memory::{alone, copied, pushed};
use crate::nodes::{is_type, name_type};
use crate::wanted::{Found, Use, Wanted, Within};
use crate::words::{is_enum, is_name, is_struct, storage_of, type_of};
use c_tree::{
    Enumerator, Identifier, Keyword, Member, MemberDeclarator, Pos, Punct, Specifier, TokenKind,
};
use std::alloc::Global;
use word_ops::Items;

#[tactic(auto, unfolding(c_grammar::specs::Input::one, c_grammar::specs::Input::behind))]
fn struct_word(input: &mut Cursor<'_>) -> Result<Pos, Stop>
    ensures reads { Reads (state.one spec.struct_at input.old) result input.new }
    ensures keeps { Keeps input.old input.new }
{
    let token = input.next_token()?;
    let TokenKind::Keyword(Keyword::Struct) = token.kind else {
        return Err(Stop::Syntax);
    };
    input.advance();
    Ok(token.place)
}

#[tactic(auto, unfolding(c_grammar::specs::Input::one, c_grammar::specs::Input::behind))]
fn enum_word(input: &mut Cursor<'_>) -> Result<Pos, Stop>
    ensures reads { Reads (state.one spec.enum_at input.old) result input.new }
    ensures keeps { Keeps input.old input.new }
{
    let token = input.next_token()?;
    let TokenKind::Keyword(Keyword::Enum) = token.kind else {
        return Err(Stop::Syntax);
    };
    input.advance();
    Ok(token.place)
}

// The specifier that a word is, where it is one by itself.
fn word_specifier(with_storage: bool, word: Keyword, place: Pos) -> Option<Specifier>
    ensures { result ≡ spec.word_at with_storage word place }
{
    if let Keyword::Const = word {
        return Some(Specifier::Const(place));
    }
    if let Some(name) = type_of(word) {
        return Some(Specifier::Word(name, place));
    }
    if !with_storage {
        return None;
    }
    match storage_of(word) {
        Some(storage) => Some(Specifier::Storage(storage, place)),
        None => None,
    }
}

// A specifier of one token; a typedef name only where no type was named before.
#[tactic(auto, unfolding(c_grammar::specs::Input::one, c_grammar::specs::Input::behind))]
fn plain(
    alloc: Global,
    input: &mut Cursor<'_>,
    with_storage: bool,
    typed: bool,
) -> Result<Specifier, Stop>
    ensures reads { Reads (state.one (spec.plain_at with_storage typed) input.old) result input.new }
    ensures keeps { Keeps input.old input.new }
{
    let token = input.next_token()?;
    let place = token.place;
    let specifier = match &token.kind {
        TokenKind::Keyword(word) => match word_specifier(with_storage, *word, place) {
            Some(specifier) => specifier,
            None => return Err(Stop::Syntax),
        },
        TokenKind::Name(text) => {
            if typed || !input.is_typedef(text) {
                return Err(Stop::Syntax);
            }
            let text = copied(alloc, text)?;
            Specifier::TypedefName(Identifier { text, place })
        }
        TokenKind::Number { .. } | TokenKind::Char(_) | TokenKind::Bytes(_) | TokenKind::Punct(_) =>
            return Err(Stop::Syntax),
    };
    input.advance();
    Ok(specifier)
}

// A comma and the name of a further enumerator come next.
fn goes_enumerator(input: &Cursor<'_>) -> bool
    ensures { result ≡ spec.goes_enumerator input.now }
{
    input.sees(Punct::Comma) && is_name(input.second())
}

// A type was named before, or by this specifier.
fn types(typed: bool, specifier: &Specifier) -> bool
    ensures { result ≡ (typed || node.is_type specifier.now) }
{
    typed || is_type(specifier)
}

fn last_comma(input: &mut Cursor<'_>) -> Result<Option<Pos>, Stop>
    ensures reads { Reads (spec.optional_comma input.old) result input.new }
    ensures keeps { Keeps input.old input.new }
{
    if input.sees(Punct::Comma) {
        return Ok(Some(input.expect(Punct::Comma)?));
    }
    Ok(None)
}

impl<F: Fn(Global, &mut Cursor<'_>, usize, Wanted) -> Result<Found, Stop>> Grammar<F> {
    fn next_member_declarator(
        &self,
        input: &mut Cursor<'_>,
        typed: bool,
    ) -> Result<MemberDeclarator, Stop>
        requires { Nests self.now.more (F.pre self.now.inside) (F.post self.now.inside) }
        ensures reads { Reads (spec.next_member_declarator self.now.more (inside self.now.more) typed input.old) result input.new }
        ensures keeps { Keeps input.old input.new }
    {
        let comma = Some(input.expect(Punct::Comma)?);
        let declarator = self.nested_declarator(input, Use::Declaring, typed)?;
        Ok(MemberDeclarator { comma, declarator })
    }

    #[tactic(auto, unfolding(crate::specs::Parts::member_declarators))]
    fn member_declarators(
        &self,
        input: &mut Cursor<'_>,
        typed: bool,
    ) -> Result<Items<MemberDeclarator>, Stop>
        requires { Nests self.now.more (F.pre self.now.inside) (F.post self.now.inside) }
        ensures reads { Reads (parts.member_declarators self.now.more (inside self.now.more) typed input.old) result input.new }
        ensures keeps { Keeps input.old input.new }
    {
        let declarator = self.nested_declarator(input, Use::Declaring, typed)?;
        let first = MemberDeclarator {
            comma: None,
            declarator,
        };
        let mut found = alone(self.alloc, first)?;
        for _turn in 0..input.left() {
            if !input.sees(Punct::Comma) {
                return Ok(found);
            }
            let next = or_drop!(self.next_member_declarator(input, typed), found);
            found = pushed(self.alloc, found, next)?;
        }
        Ok(found)
    }

    /// A declaration of members (C11 6.7.2.1).
    #[tactic(auto, using(crate::proofs::Firsts::member_is))]
    fn member(&self, input: &mut Cursor<'_>) -> Result<Member, Stop>
        requires { Nests self.now.more (F.pre self.now.inside) (F.post self.now.inside) }
        ensures reads { Reads (spec.member self.now.more (inside self.now.more) input.old) result input.new }
        ensures keeps { Keeps input.old input.new }
    {
        let specifiers = self.nested_specifiers(input, false)?;
        let typed = name_type(specifiers.as_slice());
        let declarators = or_drop!(self.member_declarators(input, typed), specifiers);
        let semicolon = or_drop!(input.expect(Punct::Semicolon), specifiers, declarators);
        Ok(Member {
            specifiers,
            declarators,
            semicolon,
        })
    }

    #[tactic(auto, unfolding(crate::specs::Parts::members))]
    fn members(&self, input: &mut Cursor<'_>) -> Result<Items<Member>, Stop>
        requires { Nests self.now.more (F.pre self.now.inside) (F.post self.now.inside) }
        ensures reads { Reads (parts.members self.now.more (inside self.now.more) input.old) result input.new }
        ensures keeps { Keeps input.old input.new }
    {
        let first = self.member(input)?;
        let mut found = alone(self.alloc, first)?;
        for _turn in 0..input.left() {
            if !input.begins_type(input.kind()) {
                return Ok(found);
            }
            let next = or_drop!(self.member(input), found);
            found = pushed(self.alloc, found, next)?;
        }
        Ok(found)
    }

    #[tactic(auto, using(crate::proofs::Firsts::struct_body_is))]
    fn struct_body(
        &self,
        input: &mut Cursor<'_>,
        word: Pos,
        tag: Option<Identifier>,
    ) -> Result<Specifier, Stop>
        requires { Nests self.now.more (F.pre self.now.inside) (F.post self.now.inside) }
        ensures reads { Reads (spec.struct_body self.now.more (inside self.now.more) word tag input.old) result input.new }
        ensures keeps { Keeps input.old input.new }
    {
        let opening = or_drop!(input.opening(self.more, Punct::LeftBrace), tag);
        let members = or_drop!(self.members(input), tag);
        let closing = or_drop!(input.expect(Punct::RightBrace), tag, members);
        Ok(Specifier::Struct {
            word,
            tag,
            opening,
            members,
            closing,
        })
    }

    /// A struct, by its tag or with its members (C11 6.7.2.1).
    #[tactic(auto, unfolding(c_grammar::specs::Read::Specifiers::struct_specifier))]
    fn struct_specifier(&self, input: &mut Cursor<'_>) -> Result<Specifier, Stop>
        requires { Nests self.now.more (F.pre self.now.inside) (F.post self.now.inside) }
        ensures reads { Reads (spec.struct_specifier self.now.more (inside self.now.more) input.old) result input.new }
        ensures keeps { Keeps input.old input.new }
    {
        let word = struct_word(input)?;
        if !is_name(input.kind()) {
            return self.struct_body(input, word, None);
        }
        let tag = input.identifier(self.alloc)?;
        if input.sees(Punct::LeftBrace) {
            return self.struct_body(input, word, Some(tag));
        }
        Ok(Specifier::StructTag(word, tag))
    }

    fn enumerator_value(
        &self,
        input: &mut Cursor<'_>,
        comma: Option<Pos>,
        id: Identifier,
    ) -> Result<Enumerator, Stop>
        requires { Nests self.now.more (F.pre self.now.inside) (F.post self.now.inside) }
        ensures reads { Reads (spec.enumerator_value self.now.more (inside self.now.more) comma id input.old) result input.new }
        ensures keeps { Keeps input.old input.new }
    {
        let equals = or_drop!(input.expect(Punct::Assign), id);
        let value = or_drop!(self.expr(input, Within::Conditional), id);
        Ok(Enumerator::Valued(comma, id, equals, value))
    }

    fn enumerator_behind(
        &self,
        input: &mut Cursor<'_>,
        comma: Option<Pos>,
        id: Identifier,
    ) -> Result<Enumerator, Stop>
        requires { Nests self.now.more (F.pre self.now.inside) (F.post self.now.inside) }
        ensures reads { Reads (state.choose (state.sees p.Assign) (spec.enumerator_value self.now.more (inside self.now.more) comma id) (state.pure (enumerator.Plain comma id)) input.old) result input.new }
        ensures keeps { Keeps input.old input.new }
    {
        if input.sees(Punct::Assign) {
            return self.enumerator_value(input, comma, id);
        }
        Ok(Enumerator::Plain(comma, id))
    }

    /// A name, and its value where one stands; the name is visible from the end (C11 6.7.2.2).
    #[tactic(auto, unfolding(c_grammar::specs::Read::Specifiers::one_enumerator))]
    fn enumerator(&self, input: &mut Cursor<'_>, comma: Option<Pos>) -> Result<Enumerator, Stop>
        requires { Nests self.now.more (F.pre self.now.inside) (F.post self.now.inside) }
        ensures reads { Reads (spec.one_enumerator self.now.more (inside self.now.more) comma input.old) result input.new }
        ensures keeps { Keeps input.old input.new }
    {
        let id = input.identifier(self.alloc)?;
        let Ok(name) = copied(self.alloc, &id.text) else {
            drop(id);
            return Err(Stop::Memory);
        };
        let enumerator = or_drop!(self.enumerator_behind(input, comma, id), name);
        or_drop!(input.declare(name, false), enumerator);
        Ok(enumerator)
    }

    #[tactic(auto, unfolding(c_grammar::specs::Read::Specifiers::next_enumerator))]
    fn next_enumerator(&self, input: &mut Cursor<'_>) -> Result<Enumerator, Stop>
        requires { Nests self.now.more (F.pre self.now.inside) (F.post self.now.inside) }
        ensures reads { Reads (spec.next_enumerator self.now.more (inside self.now.more) input.old) result input.new }
        ensures keeps { Keeps input.old input.new }
    {
        let comma = input.expect(Punct::Comma)?;
        self.enumerator(input, Some(comma))
    }

    #[tactic(auto, unfolding(crate::specs::Parts::enumerators))]
    fn enumerators(&self, input: &mut Cursor<'_>) -> Result<Items<Enumerator>, Stop>
        requires { Nests self.now.more (F.pre self.now.inside) (F.post self.now.inside) }
        ensures reads { Reads (parts.enumerators self.now.more (inside self.now.more) input.old) result input.new }
        ensures keeps { Keeps input.old input.new }
    {
        let first = self.enumerator(input, None)?;
        let mut found = alone(self.alloc, first)?;
        for _turn in 0..input.left() {
            if !goes_enumerator(input) {
                return Ok(found);
            }
            let next = or_drop!(self.next_enumerator(input), found);
            found = pushed(self.alloc, found, next)?;
        }
        Ok(found)
    }

    #[tactic(auto, using(crate::proofs::Firsts::enum_body_is))]
    fn enum_body(
        &self,
        input: &mut Cursor<'_>,
        word: Pos,
        tag: Option<Identifier>,
    ) -> Result<Specifier, Stop>
        requires { Nests self.now.more (F.pre self.now.inside) (F.post self.now.inside) }
        ensures reads { Reads (spec.enum_body self.now.more (inside self.now.more) word tag input.old) result input.new }
        ensures keeps { Keeps input.old input.new }
    {
        let opening = or_drop!(input.opening(self.more, Punct::LeftBrace), tag);
        let enumerators = or_drop!(self.enumerators(input), tag);
        let comma = or_drop!(last_comma(input), tag, enumerators);
        let closing = or_drop!(input.expect(Punct::RightBrace), tag, enumerators);
        Ok(Specifier::Enum {
            word,
            tag,
            opening,
            enumerators,
            comma,
            closing,
        })
    }

    /// An enum, by its tag or with its enumerators (C11 6.7.2.2).
    #[tactic(auto, unfolding(c_grammar::specs::Read::Specifiers::enum_specifier))]
    fn enum_specifier(&self, input: &mut Cursor<'_>) -> Result<Specifier, Stop>
        requires { Nests self.now.more (F.pre self.now.inside) (F.post self.now.inside) }
        ensures reads { Reads (spec.enum_specifier self.now.more (inside self.now.more) input.old) result input.new }
        ensures keeps { Keeps input.old input.new }
    {
        let word = enum_word(input)?;
        if !is_name(input.kind()) {
            return self.enum_body(input, word, None);
        }
        let tag = input.identifier(self.alloc)?;
        if input.sees(Punct::LeftBrace) {
            return self.enum_body(input, word, Some(tag));
        }
        Ok(Specifier::EnumTag(word, tag))
    }

    #[tactic(auto, unfolding(c_grammar::specs::Read::Specifiers::one_specifier))]
    fn specifier(
        &self,
        input: &mut Cursor<'_>,
        with_storage: bool,
        typed: bool,
    ) -> Result<Specifier, Stop>
        requires { Nests self.now.more (F.pre self.now.inside) (F.post self.now.inside) }
        ensures reads { Reads (spec.one_specifier self.now.more (inside self.now.more) with_storage typed input.old) result input.new }
        ensures keeps { Keeps input.old input.new }
    {
        if is_struct(input.kind()) {
            return self.struct_specifier(input);
        }
        if is_enum(input.kind()) {
            return self.enum_specifier(input);
        }
        plain(self.alloc, input, with_storage, typed)
    }

    /// Specifiers, one or more (C11 6.7).
    #[tactic(auto, using(crate::proofs::Firsts::specifiers_are))]
    pub fn specifiers(
        &self,
        input: &mut Cursor<'_>,
        with_storage: bool,
    ) -> Result<Items<Specifier>, Stop>
        requires { Nests self.now.more (F.pre self.now.inside) (F.post self.now.inside) }
        ensures reads { Reads (spec.specifiers self.now.more (inside self.now.more) with_storage input.old) result input.new }
        ensures keeps { Keeps input.old input.new }
    {
        let first = self.specifier(input, with_storage, false)?;
        let mut typed = is_type(&first);
        let mut found = alone(self.alloc, first)?;
        for _turn in 0..input.left() {
            if !input.begins_specifier(with_storage, typed, input.kind()) {
                return Ok(found);
            }
            let next = or_drop!(self.specifier(input, with_storage, typed), found);
            typed = types(typed, &next);
            found = pushed(self.alloc, found, next)?;
        }
        Ok(found)
    }
}
