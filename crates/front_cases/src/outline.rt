//! Units as text that shows how their statements and initialisers are put together.
//!
//! Of an expression stands its name or the kind of its outermost node.

use crate::trees::{put, put_text};
use c_tree::{
    Block, BlockItem, Condition, Declaration, Declarator, Definition, Direct, Else, Expr, External,
    ForControl, ForHead, InitDeclarator, Initialiser, InitialiserItem, Stmt,
};
use std::alloc::AllocError;

fn put_expr(out: &mut String, tree: &Expr) -> Result<(), AllocError> {
    match tree {
        Expr::Name(id) => put_text(out, &id.text),
        Expr::Number(_, _, _) => put(out, "number"),
        Expr::Char(_, _) => put(out, "character"),
        Expr::Strings(_) => put(out, "strings"),
        Expr::Paren(_, _, _) => put(out, "paren"),
        Expr::Postfix(_, _) => put(out, "postfix"),
        Expr::SizeofType(_, _, _, _) => put(out, "sizeof-type"),
        Expr::Prefixed(_, _) => put(out, "prefixed"),
        Expr::Binary(_, _, _) => put(out, "binary"),
        Expr::Conditional(_, _) => put(out, "conditional"),
        Expr::Assign(_, _) => put(out, "assign"),
        Expr::Comma(_, _) => put(out, "comma"),
    }
}

fn put_value(out: &mut String, value: &Option<Expr>) -> Result<(), AllocError> {
    match value {
        Some(tree) => put_expr(out, tree),
        None => put(out, "-"),
    }
}

fn put_declarator(out: &mut String, tree: &Declarator) -> Result<(), AllocError> {
    match &tree.direct {
        Direct::Nothing => put(out, "nothing"),
        Direct::Named(id) => put_text(out, &id.text),
        Direct::Grouped(_, inner, _) => put_declarator(out, inner.get()),
    }
}

#[cycle(initialiser)]
fn put_initialiser(out: &mut String, tree: &Initialiser) -> Result<(), AllocError> {
    match tree {
        Initialiser::Expression(value) => {
            put_expr(out, value)?;
            Ok(())
        }
        Initialiser::List { items, comma, .. } => {
            put(out, "{")?;
            put_items(out, items.as_slice())?;
            put(out, if comma.is_some() { ", }" } else { "}" })?;
            Ok(())
        }
    }
}

#[cycle(initialiser)]
fn put_items(out: &mut String, all: &[InitialiserItem]) -> Result<(), AllocError> {
    for one in all {
        put_initialiser(out, &one.value)?;
    }
    Ok(())
}

fn put_declared(out: &mut String, one: &InitDeclarator) -> Result<(), AllocError> {
    put_declarator(out, &one.declarator)?;
    match &one.start {
        Some(start) => {
            put(out, "=")?;
            put_initialiser(out, &start.value)
        }
        None => Ok(()),
    }
}

fn put_declaration(out: &mut String, tree: &Declaration) -> Result<(), AllocError> {
    put(out, "declare")?;
    for one in tree.declarators.as_slice() {
        put_declared(out, one)?;
    }
    put(out, ";")
}

fn put_condition(out: &mut String, word: &str, condition: &Condition) -> Result<(), AllocError> {
    put(out, word)?;
    put_expr(out, &condition.value)
}

fn put_control(out: &mut String, control: &ForControl) -> Result<(), AllocError> {
    put(out, "for")?;
    match &control.head {
        ForHead::Declaration(tree) => put_declaration(out, tree)?,
        ForHead::Expression(value, _) => put_value(out, value)?,
    }
    put_value(out, &control.condition)?;
    put_value(out, &control.step)
}

fn put_else(out: &mut String, tree: &Else) -> Result<(), AllocError> {
    match &tree.head {
        Some(head) => put_condition(out, "else if", &head.condition),
        None => put(out, "else"),
    }
}

#[cycle(statement)]
fn put_stmt(out: &mut String, tree: &Stmt) -> Result<(), AllocError> {
    match tree {
        Stmt::Block(block) => put_block(out, block),
        Stmt::Expression(value, _) => put_value(out, value),
        Stmt::If {
            condition,
            body,
            others,
            ..
        } => {
            put_condition(out, "< if", condition)?;
            put_stmt(out, body.get())?;
            put_others(out, others.as_slice())?;
            put(out, ">")
        }
        Stmt::While(_, condition, body) => {
            put_condition(out, "< while", condition)?;
            put_stmt(out, body.get())?;
            put(out, ">")
        }
        Stmt::Do {
            body,
            condition,
            ..
        } => {
            put(out, "< do")?;
            put_stmt(out, body.get())?;
            put_condition(out, "while", condition)?;
            put(out, ">")
        }
        Stmt::For(_, control, body) => {
            put(out, "<")?;
            put_control(out, control)?;
            put_stmt(out, body.get())?;
            put(out, ">")
        }
        Stmt::Switch(_, condition, body) => {
            put_condition(out, "< switch", condition)?;
            put_block(out, body)?;
            put(out, ">")
        }
        Stmt::Break(_, _) => put(out, "break"),
        Stmt::Continue(_, _) => put(out, "continue"),
        Stmt::Return(_, value, _) => {
            put(out, "return")?;
            put_value(out, value)
        }
    }
}

#[cycle(statement)]
fn put_others(out: &mut String, all: &[Else]) -> Result<(), AllocError> {
    for one in all {
        put_else(out, one)?;
        put_stmt(out, &one.body)?;
    }
    Ok(())
}

#[cycle(statement)]
fn put_block(out: &mut String, tree: &Block) -> Result<(), AllocError> {
    put(out, "{")?;
    for one in tree.items.as_slice() {
        put_item(out, one)?;
    }
    put(out, "}")
}

#[cycle(statement)]
fn put_item(out: &mut String, tree: &BlockItem) -> Result<(), AllocError> {
    match tree {
        BlockItem::Declaration(declaration) => put_declaration(out, declaration),
        BlockItem::Statement(statement) => put_stmt(out, statement),
        BlockItem::Case(_, value, _) => {
            put(out, "case")?;
            put_expr(out, value)
        }
        BlockItem::Default(_, _) => put(out, "default"),
    }
}

fn put_definition(out: &mut String, tree: &Definition) -> Result<(), AllocError> {
    put(out, "define")?;
    put_declarator(out, &tree.declarator)?;
    put_block(out, &tree.body)
}

fn put_external(out: &mut String, tree: &External) -> Result<(), AllocError> {
    match tree {
        External::Declaration(declaration) => put_declaration(out, declaration),
        External::Definition(definition) => put_definition(out, definition),
    }
}

/// Puts the items of a unit.
pub fn put_externals(out: &mut String, all: &[External]) -> Result<(), AllocError> {
    for one in all {
        put_external(out, one)?;
    }
    Ok(())
}
