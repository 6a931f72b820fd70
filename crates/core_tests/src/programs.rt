//! Core code: a program is built and read, and each act is built.
use core_lang::{Atom, Core, CoreFunction, Part, PointerOp, Program, Start, StaticObject};
use std::alloc::{AllocError, Global};
use std::test::Fail;
use word_ops::{Items, Op, Width};

/// `while (x < 10) x = x + 1;`, x being variable 0.
fn counting(alloc: Global) -> Result<Items<Core>, AllocError> {
    let mut step = Items::new(alloc);
    step.push(Core::Operate(2, Op::Adds, Atom::Var(0), Atom::Word(1)))?;
    step.push(Core::Move(0, Atom::Var(2)))?;
    let mut leave = Items::new(alloc);
    leave.push(Core::Break(0))?;
    let mut turn = Items::new(alloc);
    turn.push(Core::Operate(1, Op::Lts, Atom::Var(0), Atom::Word(10)))?;
    turn.push(Core::If(Atom::Var(1), step, leave))?;
    let mut body = Items::new(alloc);
    body.push(Core::Loop(turn))?;
    body.push(Core::Return(Some(Atom::Var(0))))?;
    Ok(body)
}

/// How many acts a list has, those in it among them, to a depth of three lists.
fn count(acts: &[Core]) -> usize {
    acts.iter().fold(0, |n, act| n.saturating_add(inside(act)).saturating_add(1))
}

fn inside(act: &Core) -> usize {
    match act {
        Core::Block(all) | Core::Loop(all) => choices(all.as_slice()),
        _ => 0,
    }
}

fn choices(acts: &[Core]) -> usize {
    acts.iter().fold(
        0,
        |n, act| n.saturating_add(branches(act)).saturating_add(1),
    )
}

fn branches(act: &Core) -> usize {
    match act {
        Core::If(_, first, second) => first.len().saturating_add(second.len()),
        _ => 0,
    }
}

#[test]
fn a_program_is_built_and_read(rt: HostRuntime) -> Result<(), Fail> {
    let alloc = rt.alloc();
    let main = CoreFunction {
        params: 0,
        vars: 1,
        temps: 2,
        locals: Items::from_vec(Vec::from_slice(alloc, &[4])?),
        body: counting(alloc)?,
        returns: true,
        size: 1,
        object_bytes: 16,
    };
    let table = StaticObject {
        size: 8,
        constant: false,
        parts: Items::from_slice(
            alloc,
            &[
                Part {
                    offset: 0,
                    word: Start::Byte(104),
                },
                Part {
                    offset: 4,
                    word: Start::Address(0, 1),
                },
            ],
        )?,
    };
    let mut functions = Items::new(alloc);
    functions.push(main)?;
    let mut objects = Items::new(alloc);
    objects.push(table)?;
    let program = Program {
        functions,
        objects,
        main: 0,
    };
    let body = program.functions.as_slice()[0].body.as_slice();
    assert_eq!(rt; count(body), 7);
    assert_eq!(rt;
        program.objects.as_slice()[0].parts.as_slice()[1].word,
        Start::Address(0, 1)
    );
    assert!(rt; matches!(body.last(), Some(Core::Return(Some(Atom::Var(0))))));
    Ok(())
}

#[test]
fn the_other_acts_are_built(rt: HostRuntime) -> Result<(), Fail> {
    let alloc = rt.alloc();
    let mut acts = Items::new(alloc);
    acts.push(Core::Enter(0))?;
    acts.push(Core::Fill(0))?;
    acts.push(Core::Store(Width::U16, Atom::Local(0), Atom::Word(7)))?;
    acts.push(Core::Load(1, Width::S8, Atom::Local(0)))?;
    acts.push(Core::Pointer(2, PointerOp::Offset, Atom::Global(1), Atom::Var(1)))?;
    acts.push(Core::Copy(Atom::Local(0), Atom::Var(2), 8, 4))?;
    acts.push(Core::Call(Some(3), 1, Items::from_slice(alloc, &[Atom::Var(2)])?))?;
    acts.push(Core::Get(4))?;
    acts.push(Core::Put(Atom::Var(4)))?;
    acts.push(Core::Exit(Atom::Word(300)))?;
    let mut body = Items::new(alloc);
    body.push(Core::Block(acts))?;
    assert_eq!(rt; count(body.as_slice()), 11);
    assert!(rt; PointerOp::Before != PointerOp::AtMost);
    Ok(())
}
