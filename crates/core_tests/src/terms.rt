//! The domain of terms: which answers are shared, marks, and what is known of terms.
use domain_laws::{Chance, Domain, Widening};
use std::alloc::Global;
use std::process::Abort;
use std::test::Fail;
use term_domain::Terms;
use term_form::{Facts, Node, Root, Term, anything, only};
use word_ops::{Memory, Op, Width};

#[test]
fn equal_sums_are_one_term(rt: HostRuntime) -> Result<(), Fail> {
    let mut dom = Terms::new(rt.alloc());
    let x = dom.root(Root::Got)?;
    let y = dom.root(Root::Got)?;
    assert!(rt; x != y);
    assert!(rt; dom.in_scope(x) && dom.in_scope(y));
    let first = dom.operate(Op::Adds, x, y)?;
    assert!(rt; dom.in_scope(x) && dom.in_scope(y));
    let second = dom.operate(Op::Adds, x, y)?;
    assert_eq!(rt; second, first);
    Ok(())
}

#[test]
fn operands_stand_in_order(rt: HostRuntime) -> Result<(), Fail> {
    let mut dom = Terms::new(rt.alloc());
    let x = dom.root(Root::Got)?;
    let y = dom.konst(7)?;
    assert!(rt; dom.in_scope(x) && dom.in_scope(y));
    let first = dom.operate(Op::Subs, x, y)?;
    assert!(rt; dom.in_scope(x) && dom.in_scope(y));
    let second = dom.operate(Op::Subs, y, x)?;
    assert!(rt; second != first);
    assert!(rt; dom.in_scope(second));
    assert_eq!(rt; dom.node(second), Node::Operate(Op::Subs, y, x));
    Ok(())
}

#[test]
fn a_scope_that_was_left_shares_nothing(rt: HostRuntime) -> Result<(), Fail> {
    let mut dom = Terms::new(rt.alloc());
    let x = dom.root(Root::Got)?;
    let mark = dom.mark();
    assert!(rt; dom.in_scope(x));
    let first = dom.operate(Op::Adds, x, x)?;
    dom.leave(&mark);
    assert!(rt; !dom.in_scope(first));
    assert!(rt; dom.in_scope(x));
    let other = dom.operate(Op::Subs, x, x)?;
    assert_eq!(rt; other, first);
    assert!(rt; dom.in_scope(x));
    let again = dom.operate(Op::Adds, x, x)?;
    assert!(rt; again != first);
    Ok(())
}

#[test]
fn a_mark_may_be_left_twice(rt: HostRuntime) -> Result<(), Fail> {
    let mut dom = Terms::new(rt.alloc());
    let one = dom.konst(1)?;
    let mark = dom.mark();
    let two = dom.konst(2)?;
    dom.leave(&mark);
    assert!(rt; !dom.in_scope(two));
    let again = dom.konst(3)?;
    assert_eq!(rt; again, two);
    dom.leave(&mark);
    assert!(rt; dom.in_scope(one) && !dom.in_scope(again));
    Ok(())
}

#[test]
fn marks_nest(rt: HostRuntime) -> Result<(), Fail> {
    let mut dom = Terms::new(rt.alloc());
    let outer = dom.mark();
    let two = dom.konst(2)?;
    let inner = dom.mark();
    let three = dom.konst(3)?;
    dom.leave(&inner);
    assert!(rt; dom.in_scope(two) && !dom.in_scope(three));
    dom.leave(&outer);
    assert!(rt; !dom.in_scope(two));
    Ok(())
}

#[test]
fn objects_have_one_term(rt: HostRuntime) -> Result<(), Fail> {
    let mut dom = Terms::new(rt.alloc());
    let global = dom.root(Root::Global(0))?;
    let local = dom.root(Root::Local(0))?;
    assert!(rt; global != local);
    assert_eq!(rt; dom.root(Root::Global(0))?, global);
    assert_eq!(rt; dom.root(Root::Local(0))?, local);
    let next = dom.root(Root::Global(1))?;
    assert!(rt; next != global);
    let seven = dom.konst(7)?;
    assert_eq!(rt; dom.konst(7)?, seven);
    Ok(())
}

#[test]
fn other_roots_are_new_terms(rt: HostRuntime) -> Result<(), Fail> {
    let mut dom = Terms::new(rt.alloc());
    let param = dom.root(Root::Param(0))?;
    let param_again = dom.root(Root::Param(0))?;
    assert!(rt; param_again != param);
    let called = dom.root(Root::Called)?;
    let called_again = dom.root(Root::Called)?;
    assert!(rt; called_again != called);
    Ok(())
}

#[test]
fn loads_are_new_terms(rt: HostRuntime) -> Result<(), Fail> {
    let mut dom = Terms::new(rt.alloc());
    let pointer = dom.root(Root::Global(0))?;
    let first = dom.load(Width::Word, pointer)?;
    assert!(rt; dom.in_scope(pointer));
    let second = dom.load(Width::Word, pointer)?;
    assert!(rt; first != second);
    assert_eq!(rt; dom.node(second), Node::Load(Width::Word, pointer));
    assert!(rt; dom.in_scope(pointer) && dom.in_scope(first));
    dom.store(Width::Word, pointer, first)?;
    dom.clobber()?;
    assert!(rt; dom.in_scope(second));
    Ok(())
}

// What assume answers of a constant.
fn chance(alloc: Global, word: u32, holds: bool) -> Result<Chance, Memory> {
    let mut dom = Terms::new(alloc);
    let term = dom.konst(word)?;
    dom.assume(term, holds)
}

#[test]
fn only_constants_are_decided(rt: HostRuntime) -> Result<(), Fail> {
    assert_eq!(rt; chance(rt.alloc(), 0, true)?, Chance::Never);
    assert_eq!(rt; chance(rt.alloc(), 0, false)?, Chance::Possible);
    assert_eq!(rt; chance(rt.alloc(), 5, true)?, Chance::Possible);
    assert_eq!(rt; chance(rt.alloc(), 5, false)?, Chance::Never);
    let mut dom = Terms::new(rt.alloc());
    let byte = dom.root(Root::Got)?;
    assert_eq!(rt; dom.assume(byte, true)?, Chance::Possible);
    assert!(rt; dom.in_scope(byte));
    assert_eq!(rt; dom.assume(byte, false)?, Chance::Possible);
    Ok(())
}

// Facts that tell the signed interval alone.
fn signed(low: i32, high: i32) -> Facts {
    Facts {
        low,
        high,
        ..anything()
    }
}

#[test]
fn phis_keep_what_was_assumed(rt: HostRuntime) -> Result<(), Fail> {
    let mut dom = Terms::new(rt.alloc());
    let assumed = signed(0, 10);
    let entry = dom.konst(0)?;
    let phi = dom.open_phi(&assumed)?;
    assert_eq!(rt; dom.facts(phi), assumed);
    assert_eq!(rt; dom.node(phi), Node::Phi);
    dom.close_phi(phi, &[entry, phi])?;
    assert!(rt; dom.in_scope(entry) && dom.in_scope(phi));
    assert_eq!(rt; dom.facts(entry), only(0));
    assert!(rt; dom.covers(&assumed, entry));
    assert!(rt; dom.covers(&assumed, phi));
    Ok(())
}

#[test]
fn bytes_lie_from_the_end_of_input_to_255(rt: HostRuntime) -> Result<(), Fail> {
    let mut dom = Terms::new(rt.alloc());
    let byte = dom.root(Root::Got)?;
    assert_eq!(rt; dom.facts(byte), signed(-1, 255));
    assert!(rt; !dom.covers(&signed(0, 10), byte));
    assert!(rt; !dom.covers(&signed(-1, 254), byte));
    assert!(rt; dom.covers(&signed(-1, 255), byte));
    assert_eq!(rt;
        dom.widen(&signed(0, 10), byte, Widening::Threshold),
        signed(-1, 255)
    );
    assert_eq!(rt;
        dom.widen(&signed(0, 10), byte, Widening::Extreme),
        anything()
    );
    Ok(())
}

// One term more, the constant of its own number, where want of memory may come once.
fn grow(rt: &impl Abort, dom: &mut Terms, word: u32) -> Result<(), Memory> {
    let next = Term(word);
    match dom.konst(word) {
        Ok(term) => assert_eq!(rt; term, next),
        Err(_) => {
            assert!(rt; !dom.in_scope(next));
            assert!(rt; word == 0 || dom.in_scope(Term(word.saturating_sub(1))));
            assert_eq!(rt; dom.konst(word)?, next);
        }
    }
    Ok(())
}

#[test]
fn want_of_memory_changes_nothing(rt: HostRuntime) -> Result<(), Fail> {
    let mut dom = Terms::new(rt.alloc());
    for word in 0..100u32 {
        grow(&rt, &mut dom, word)?;
    }
    assert!(rt; dom.in_scope(Term(99)) && !dom.in_scope(Term(100)));
    Ok(())
}
