//! Trees as their tokens, with a blank between and `< >` around each node that has a list.

use crate::tokens::put_bytes;
use c_tree::{
    Branch, Declarator, DeclaratorSuffix, Direct, Enumerator, Expr, Identifier, Literal, Mark,
    Member, MemberDeclarator, Next, Parameter, Pointer, Prefix, Punct, Specifier, Storage, Suffix,
    TypeName, TypeWord,
};
use std::alloc::AllocError;
use word_ops::Text;

/// Puts a word and a blank.
pub fn put(out: &mut String, word: &str) -> Result<(), AllocError> {
    out.push_str(word)?;
    out.push(' ')
}

/// Puts a text and a blank.
pub fn put_text(out: &mut String, text: &Text) -> Result<(), AllocError> {
    put_bytes(out, text)?;
    out.push(' ')
}

fn put_mark(out: &mut String, punct: Punct) -> Result<(), AllocError> {
    put(out, spelling(punct))
}

fn spelling(punct: Punct) -> &'static str {
    match punct {
        Punct::LeftBracket => "[",
        Punct::RightBracket => "]",
        Punct::LeftParen => "(",
        Punct::RightParen => ")",
        Punct::LeftBrace => "{",
        Punct::RightBrace => "}",
        Punct::Dot => ".",
        Punct::Arrow => "->",
        Punct::Increment => "++",
        Punct::Decrement => "--",
        Punct::Ampersand => "&",
        Punct::Star => "*",
        Punct::Plus => "+",
        Punct::Minus => "-",
        Punct::Tilde => "~",
        Punct::Not => "!",
        Punct::Slash => "/",
        Punct::Percent => "%",
        Punct::ShiftLeft => "<<",
        Punct::ShiftRight => ">>",
        Punct::Less => "<",
        Punct::Greater => ">",
        Punct::LessEqual => "<=",
        Punct::GreaterEqual => ">=",
        Punct::Equal => "==",
        Punct::NotEqual => "!=",
        Punct::Caret => "^",
        Punct::Bar => "|",
        Punct::AndAnd => "&&",
        Punct::OrOr => "||",
        Punct::Question => "?",
        Punct::Colon => ":",
        Punct::Semicolon => ";",
        Punct::Ellipsis => "...",
        Punct::Assign => "=",
        Punct::StarAssign => "*=",
        Punct::SlashAssign => "/=",
        Punct::PercentAssign => "%=",
        Punct::PlusAssign => "+=",
        Punct::MinusAssign => "-=",
        Punct::ShiftLeftAssign => "<<=",
        Punct::ShiftRightAssign => ">>=",
        Punct::AmpersandAssign => "&=",
        Punct::CaretAssign => "^=",
        Punct::BarAssign => "|=",
        Punct::Comma => ",",
    }
}

fn put_literals(out: &mut String, all: &[Literal]) -> Result<(), AllocError> {
    for literal in all {
        put_text(out, &literal.bytes)?;
    }
    Ok(())
}

/// Puts an expression.
#[cycle(shown)]
pub fn put_expr(out: &mut String, tree: &Expr) -> Result<(), AllocError> {
    match tree {
        Expr::Name(id) => put_text(out, &id.text),
        Expr::Number(value, _, _) => write!(out, "{} ", *value),
        Expr::Char(value, _) => write!(out, "'{} ", *value as char),
        Expr::Strings(all) => {
            put(out, "<")?;
            put_literals(out, all.as_slice())?;
            put(out, ">")
        }
        Expr::Paren(_, inner, _) => {
            put(out, "(")?;
            put_expr(out, inner.get())?;
            put(out, ")")
        }
        Expr::Postfix(operand, all) => {
            put(out, "<")?;
            put_expr(out, operand.get())?;
            put_suffixes(out, all.as_slice())?;
            put(out, ">")
        }
        Expr::SizeofType(_, _, name, _) => {
            put(out, "sizeof (")?;
            put_type_name(out, name.get())?;
            put(out, ")")
        }
        Expr::Prefixed(run, operand) => {
            put(out, "<")?;
            put_prefixes(out, run.as_slice())?;
            put_expr(out, operand.get())?;
            put(out, ">")
        }
        Expr::Binary(_, first, rest) | Expr::Assign(first, rest) | Expr::Comma(first, rest) => {
            put(out, "<")?;
            put_expr(out, first.get())?;
            put_nexts(out, rest.as_slice())?;
            put(out, ">")
        }
        Expr::Conditional(first, rest) => {
            put(out, "<")?;
            put_expr(out, first.get())?;
            put_branches(out, rest.as_slice())?;
            put(out, ">")
        }
    }
}

#[cycle(shown)]
fn put_suffixes(out: &mut String, all: &[Suffix]) -> Result<(), AllocError> {
    for one in all {
        put_suffix(out, one)?;
    }
    Ok(())
}

#[cycle(shown)]
fn put_suffix(out: &mut String, tree: &Suffix) -> Result<(), AllocError> {
    match tree {
        Suffix::Index(_, inner, _) => {
            put(out, "[")?;
            put_expr(out, inner)?;
            put(out, "]")
        }
        Suffix::Call(_, _) => put(out, "( )"),
        Suffix::CallWith(_, first, rest, _) => {
            put(out, "(")?;
            put_expr(out, first)?;
            put_nexts(out, rest.as_slice())?;
            put(out, ")")
        }
        Suffix::Member(_, id) => {
            put(out, ".")?;
            put_text(out, &id.text)
        }
        Suffix::Arrow(_, id) => {
            put(out, "->")?;
            put_text(out, &id.text)
        }
        Suffix::Increment(_) => put(out, "++"),
        Suffix::Decrement(_) => put(out, "--"),
    }
}

#[cycle(shown)]
fn put_prefixes(out: &mut String, all: &[Prefix]) -> Result<(), AllocError> {
    for one in all {
        put_prefix(out, one)?;
    }
    Ok(())
}

#[cycle(shown)]
fn put_prefix(out: &mut String, tree: &Prefix) -> Result<(), AllocError> {
    match tree {
        Prefix::Operator(mark) => put_mark(out, mark.punct),
        Prefix::Sizeof(_) => put(out, "sizeof"),
        Prefix::Cast(_, name, _) => {
            put(out, "(")?;
            put_type_name(out, name)?;
            put(out, ")")
        }
    }
}

#[cycle(shown)]
fn put_nexts(out: &mut String, all: &[Next]) -> Result<(), AllocError> {
    for one in all {
        put_mark(out, one.operator.punct)?;
        put_expr(out, &one.operand)?;
    }
    Ok(())
}

#[cycle(shown)]
fn put_branches(out: &mut String, all: &[Branch]) -> Result<(), AllocError> {
    for one in all {
        put(out, "?")?;
        put_expr(out, &one.gives)?;
        put(out, ":")?;
        put_expr(out, &one.operand)?;
    }
    Ok(())
}

#[cycle(shown)]
fn put_type_name(out: &mut String, tree: &TypeName) -> Result<(), AllocError> {
    put_specifiers(out, tree.specifiers.as_slice())?;
    put_declarator(out, &tree.declarator)
}

fn type_word(word: TypeWord) -> &'static str {
    match word {
        TypeWord::Void => "void",
        TypeWord::Char => "char",
        TypeWord::Short => "short",
        TypeWord::Int => "int",
        TypeWord::Long => "long",
        TypeWord::Signed => "signed",
        TypeWord::Unsigned => "unsigned",
        TypeWord::Bool => "_Bool",
    }
}

fn storage_word(word: Storage) -> &'static str {
    match word {
        Storage::Typedef => "typedef",
        Storage::Extern => "extern",
        Storage::Static => "static",
        Storage::Auto => "auto",
        Storage::Register => "register",
    }
}

fn put_tag(out: &mut String, tag: &Option<Identifier>) -> Result<(), AllocError> {
    match tag {
        Some(id) => put_text(out, &id.text),
        None => Ok(()),
    }
}

/// Puts a list of specifiers.
#[cycle(shown)]
pub fn put_specifiers(out: &mut String, all: &[Specifier]) -> Result<(), AllocError> {
    for one in all {
        put_specifier(out, one)?;
    }
    Ok(())
}

#[cycle(shown)]
fn put_specifier(out: &mut String, tree: &Specifier) -> Result<(), AllocError> {
    match tree {
        Specifier::Storage(word, _) => put(out, storage_word(*word)),
        Specifier::Const(_) => put(out, "const"),
        Specifier::Word(word, _) => put(out, type_word(*word)),
        Specifier::StructTag(_, tag) => {
            put(out, "struct")?;
            put_text(out, &tag.text)
        }
        Specifier::Struct { tag, members, .. } => {
            put(out, "struct")?;
            put_tag(out, tag)?;
            put(out, "{")?;
            put_members(out, members.as_slice())?;
            put(out, "}")
        }
        Specifier::EnumTag(_, tag) => {
            put(out, "enum")?;
            put_text(out, &tag.text)
        }
        Specifier::Enum {
            tag,
            enumerators,
            comma,
            ..
        } => {
            put(out, "enum")?;
            put_tag(out, tag)?;
            put(out, "{")?;
            put_enumerators(out, enumerators.as_slice())?;
            put(out, if comma.is_some() { ", }" } else { "}" })
        }
        Specifier::TypedefName(id) => put_text(out, &id.text),
    }
}

#[cycle(shown)]
fn put_members(out: &mut String, all: &[Member]) -> Result<(), AllocError> {
    for one in all {
        put_specifiers(out, one.specifiers.as_slice())?;
        put_member_declarators(out, one.declarators.as_slice())?;
        put(out, ";")?;
    }
    Ok(())
}

fn put_comma(out: &mut String, there: bool) -> Result<(), AllocError> {
    if there { put(out, ",") } else { Ok(()) }
}

#[cycle(shown)]
fn put_member_declarators(out: &mut String, all: &[MemberDeclarator]) -> Result<(), AllocError> {
    for one in all {
        put_comma(out, one.comma.is_some())?;
        put_declarator(out, &one.declarator)?;
    }
    Ok(())
}

#[cycle(shown)]
fn put_enumerators(out: &mut String, all: &[Enumerator]) -> Result<(), AllocError> {
    for one in all {
        put_enumerator(out, one)?;
    }
    Ok(())
}

#[cycle(shown)]
fn put_enumerator(out: &mut String, tree: &Enumerator) -> Result<(), AllocError> {
    match tree {
        Enumerator::Plain(comma, id) => {
            put_comma(out, comma.is_some())?;
            put_text(out, &id.text)
        }
        Enumerator::Valued(comma, id, _, value) => {
            put_comma(out, comma.is_some())?;
            put_text(out, &id.text)?;
            put(out, "=")?;
            put_expr(out, value)
        }
    }
}

fn put_pointers(out: &mut String, all: &[Pointer]) -> Result<(), AllocError> {
    for pointer in all {
        put(
            out,
            if pointer.constants.is_empty() {
                "*"
            } else {
                "* const"
            },
        )?;
    }
    Ok(())
}

/// Puts a declarator.
#[cycle(shown)]
pub fn put_declarator(out: &mut String, tree: &Declarator) -> Result<(), AllocError> {
    put(out, "<")?;
    put_pointers(out, tree.pointers.as_slice())?;
    put_direct(out, &tree.direct)?;
    put_behind(out, tree.suffixes.as_slice())?;
    put(out, ">")
}

#[cycle(shown)]
fn put_direct(out: &mut String, tree: &Direct) -> Result<(), AllocError> {
    match tree {
        Direct::Nothing => Ok(()),
        Direct::Named(id) => put_text(out, &id.text),
        Direct::Grouped(_, inner, _) => {
            put(out, "(")?;
            put_declarator(out, inner.get())?;
            put(out, ")")
        }
    }
}

#[cycle(shown)]
fn put_behind(out: &mut String, all: &[DeclaratorSuffix]) -> Result<(), AllocError> {
    for one in all {
        put_declarator_suffix(out, one)?;
    }
    Ok(())
}

#[cycle(shown)]
fn put_declarator_suffix(out: &mut String, tree: &DeclaratorSuffix) -> Result<(), AllocError> {
    match tree {
        DeclaratorSuffix::Array(_, _) => put(out, "[ ]"),
        DeclaratorSuffix::ArrayOf(_, size, _) => {
            put(out, "[")?;
            put_expr(out, size)?;
            put(out, "]")
        }
        DeclaratorSuffix::Empty(_, _) => put(out, "( )"),
        DeclaratorSuffix::Void(_, _, _) => put(out, "( void )"),
        DeclaratorSuffix::Parameters(_, all, _) => {
            put(out, "(")?;
            put_parameters(out, all.as_slice())?;
            put(out, ")")
        }
    }
}

#[cycle(shown)]
fn put_parameters(out: &mut String, all: &[Parameter]) -> Result<(), AllocError> {
    for one in all {
        put_comma(out, one.comma.is_some())?;
        put_specifiers(out, one.specifiers.as_slice())?;
        put_declarator(out, &one.declarator)?;
    }
    Ok(())
}
