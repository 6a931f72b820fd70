//! Tokens, and short runs of them, that are taken behind those so far.
//! What stands here leads to no tree.

ghost use Rattle.std.specs.Prelude.{◌≡◌, ◌++◌, ◌∷◌, [], OnOk, map};
ghost use Rattle.c_tree.specs.Spelling.Tokens as spec;

use crate::declarator::Pointer;
use crate::expression::{Identifier, Literal, Mark};
use crate::specifier::{Storage, TypeWord};
use crate::spelling::taker::Taker;
use crate::token::{Keyword, Pos, Punct, TokenKind};
use word_ops::Memory;

pub(super) fn punct<S: Taker>(out: &mut S, punct: Punct) -> Result<(), Memory>
    ensures { OnOk result (S.taken out.new ≡ S.taken out.old ++ S.shown (TokenKind.Punct punct) ∷ []) }
{
    out.take(TokenKind::Punct(punct))?;
    Ok(())
}

pub(super) fn keyword<S: Taker>(out: &mut S, keyword: Keyword) -> Result<(), Memory>
    ensures { OnOk result (S.taken out.new ≡ S.taken out.old ++ S.shown (TokenKind.Keyword keyword) ∷ []) }
{
    out.take(TokenKind::Keyword(keyword))?;
    Ok(())
}

pub(super) fn identifier<S: Taker>(out: &mut S, id: &Identifier) -> Result<(), Memory>
    ensures { OnOk result (S.taken out.new ≡ S.taken out.old ++ spec.told S.shown (spec.name id.now ∷ [])) }
{
    out.take_name(id.text.as_slice())?;
    Ok(())
}

fn literal<S: Taker>(out: &mut S, one: &Literal) -> Result<(), Memory>
    ensures { OnOk result (S.taken out.new ≡ S.taken out.old ++ spec.told S.shown (spec.literal_spelling one.now)) }
{
    out.take_bytes(one.bytes.as_slice())?;
    Ok(())
}

pub(super) fn literals<S: Taker>(out: &mut S, all: &[Literal]) -> Result<(), Memory>
    ensures { OnOk result (S.taken out.new ≡ S.taken out.old ++ spec.told S.shown (spec.joined (map spec.literal_spelling all.now))) }
{
    for one in all {
        literal(out, one)?;
    }
    Ok(())
}

pub(super) fn comma_at<S: Taker>(out: &mut S, comma: &Option<Pos>) -> Result<(), Memory>
    ensures { OnOk result (S.taken out.new ≡ S.taken out.old ++ spec.told S.shown (spec.comma_at comma.now)) }
{
    match comma {
        Some(_) => {
            punct(out, Punct::Comma)?;
            Ok(())
        }
        None => Ok(()),
    }
}

pub(super) fn name_at<S: Taker>(out: &mut S, name: &Option<Identifier>) -> Result<(), Memory>
    ensures { OnOk result (S.taken out.new ≡ S.taken out.old ++ spec.told S.shown (spec.name_at name.now)) }
{
    match name {
        Some(id) => {
            identifier(out, id)?;
            Ok(())
        }
        None => Ok(()),
    }
}

fn consts<S: Taker>(out: &mut S, all: &[Pos]) -> Result<(), Memory>
    ensures { OnOk result (S.taken out.new ≡ S.taken out.old ++ spec.told S.shown (spec.joined (map spec.const_spelling all.now))) }
{
    for _place in all {
        keyword(out, Keyword::Const)?;
    }
    Ok(())
}

pub(super) fn pointers<S: Taker>(out: &mut S, all: &[Pointer]) -> Result<(), Memory>
    ensures { OnOk result (S.taken out.new ≡ S.taken out.old ++ spec.told S.shown (spec.joined (map spec.pointer_spelling all.now))) }
{
    for one in all {
        punct(out, Punct::Star)?;
        consts(out, one.constants.as_slice())?;
    }
    Ok(())
}

pub(super) fn storage_word(storage: Storage) -> Keyword
    ensures { result ≡ spec.storage_word storage }
{
    match storage {
        Storage::Typedef => Keyword::Typedef,
        Storage::Extern => Keyword::Extern,
        Storage::Static => Keyword::Static,
        Storage::Auto => Keyword::Auto,
        Storage::Register => Keyword::Register,
    }
}

pub(super) fn type_word(word: TypeWord) -> Keyword
    ensures { result ≡ spec.type_word word }
{
    match word {
        TypeWord::Void => Keyword::Void,
        TypeWord::Char => Keyword::Char,
        TypeWord::Short => Keyword::Short,
        TypeWord::Int => Keyword::Int,
        TypeWord::Long => Keyword::Long,
        TypeWord::Signed => Keyword::Signed,
        TypeWord::Unsigned => Keyword::Unsigned,
        TypeWord::Bool => Keyword::Bool,
    }
}
