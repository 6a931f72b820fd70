//! The domain of terms alone, which implements the trait of `domain_laws` over a table: the bottom of every
//! tower.

ghost use Rattle.std.specs.Prelude.{◌≡◌, ◌≢◌, ℕ, ◌<◌, length, IfOk, OnErr, true, false, None};
ghost use Rattle.word_ops.specs.Changes.{SameRegions};
ghost use Rattle.term_form.specs.declared.term.Node.TheVariants as nodes;
ghost use Rattle.term_form.specs.Narrower.{only_word, any_word};
ghost use Rattle.domain_laws.specs.declared.chance.Chance.TheVariants.{Possible, Never};
ghost use Rattle.domain_laws.specs.World.{World, IsWorld};
ghost use Rattle.domain_laws.specs.Promises.{IsOverScope};
ghost use Rattle.scope_map.specs.Scopes.{Marked};
ghost use Rattle.term_domain.specs.Keys.{own_place};
ghost use Rattle.term_domain.specs.Rows.{node_at, facts_at, TableStands, IsShared, MayHave, Refutes, facts_of_root, facts_of_width};
ghost use Rattle.term_domain.specs.Laws.{stands-local, stands-fades, marked_older, below_stable};

use crate::table::Table;
use domain_laws::{Chance, Domain, Widening, widened};
use std::alloc::Global;
use term_form::{Facts, Node, Root, Term, anything, is_narrower, only};
use word_ops::{Memory, Op, Width};

/// Terms that share operations: the domain that knows nothing but constants, what was assumed of phis, and the numbers that a
/// byte taken and a load of a narrow width may be.
#[derive(Drop)]
pub struct Terms {
    table: Table,
}

/// How many terms there were.
#[derive(Clone, Copy, Debug, Drop)]
pub struct TermMark {
    count: usize,
}

impl Terms {
    /// A domain without terms, which stands for every world.
    pub fn new(alloc: Global) -> Self
        ensures stands { (w : World) → IsWorld w.store w.home → ⟦<Terms as Domain>⟧.stands result w }
        ensures empty { (x : ℕ) → ⟦<Terms as Domain>⟧.has result x → ⊥ }
    {
        Terms {
            table: Table::new(alloc),
        }
    }

    // The one term of a node that is shared.
    fn share(&mut self, node: Node, facts: Facts) -> Result<Term, Memory>
        requires shared { (x : ℕ) → own_place node x ≡ None }
        requires older { IsOverScope (λ y. y < length self.old.table) node }
        ensures ok { IfOk result (λ t. IsShared self.old.table node facts t.0 self.new.table) }
        ensures err { OnErr result (self.new.table ≡ self.old.table) }
    {
        if let Some(place) = self.table.find(node) {
            return match u32::try_from(place) {
                Ok(number) => Ok(Term(number)),
                Err(_) => Err(Memory),
            };
        }
        self.table.push(node, facts)
    }
}

// What a root's word is by itself.
fn root_facts(root: Root) -> Facts
    ensures { result ≡ facts_of_root root }
{
    match root {
        Root::Got => Facts {
            low: -1,
            high: 255,
            ..anything()
        },
        Root::Global(_) | Root::Local(_) | Root::Param(_) | Root::Called => anything(),
    }
}

// What a load's word is by its width alone.
fn width_facts(width: Width) -> Facts
    ensures { result ≡ facts_of_width width }
{
    match width {
        Width::U8 => Facts {
            low: 0,
            high: 255,
            most: 255,
            zeros: 0xffff_ff00,
            ..anything()
        },
        Width::S8 => Facts {
            low: -128,
            high: 127,
            ..anything()
        },
        Width::U16 => Facts {
            low: 0,
            high: 65535,
            most: 65535,
            zeros: 0xffff_0000,
            ..anything()
        },
        Width::S16 => Facts {
            low: -32768,
            high: 32767,
            ..anything()
        },
        Width::Word => anything(),
    }
}

// Whether a term of this node can have the truth: a constant has that of its word alone.
fn chance_of(node: Node, holds: bool) -> Chance
    ensures possible { result ≡ Possible → MayHave node holds }
    ensures never { result ≡ Never → Refutes node holds }
{
    match node {
        Node::Konst(word) => {
            if (word != 0) == holds {
                Chance::Possible
            } else {
                Chance::Never
            }
        }
        Node::Root(_) | Node::Operate(_, _, _) | Node::Load(_, _) | Node::Phi => Chance::Possible,
    }
}

impl Domain for Terms {
    type Mark = TermMark;

    ghost stands = { λ d w. TableStands d.table w };

    ghost has = { λ d x. x < length d.table };

    ghost node_of = { λ d x. node_at d.table x };

    ghost facts_of = { λ d x. facts_at d.table x };

    ghost marked = { λ d m e. Marked d.table m.count e.table };

    ghost light = { λ d m e. Marked d.table m.count e.table };

    ghost fits = { λ op j k f g h. Unit {0} };

    ghost opens = { λ j f holds. MayHave j holds };

    ghost shares = { true };

    ghost remembers = { false };

    ghost recalls = { λ d p k. ⊥ };

    ghost local = { λ d w u same h. stands-local d.table w u same h };

    ghost sound = { λ d w h. h.sound };

    ghost inside = { λ d w x h lt. (h.each x lt).inside };

    ghost fades = { λ d w s f h. stands-fades d.table w s f h };

    ghost node_is = { λ d w x h lt. (h.each x lt).says };

    ghost older = { λ m d e x h lt. marked_older d.table e.table m.count x h lt };

    ghost stable = { λ d x h. below_stable x (length d.table) h };

    ghost light_is = { λ m d e h. h };

    ghost fits_wider = { λ op j k f g h f' g' p q fits. tt };

    ghost opens_wider = { λ j f g holds p h. h };

    fn konst(&mut self, word: u32) -> Result<Term, Memory> {
        self.share(Node::Konst(word), only(word))
    }

    fn root(&mut self, root: Root) -> Result<Term, Memory> {
        let facts = root_facts(root);
        match root {
            Root::Global(_) | Root::Local(_) => self.share(Node::Root(root), facts),
            Root::Param(_) | Root::Got | Root::Called => self.table.push(Node::Root(root), facts),
        }
    }

    fn operate(&mut self, op: Op, a: Term, b: Term) -> Result<Term, Memory> {
        self.share(Node::Operate(op, a, b), anything())
    }

    fn load(&mut self, width: Width, pointer: Term) -> Result<Term, Memory> {
        self.table
            .push(Node::Load(width, pointer), width_facts(width))
    }

    fn store(&mut self, width: Width, pointer: Term, value: Term) -> Result<(), Memory> {
        Ok(())
    }

    fn clobber(&mut self) -> Result<(), Memory> {
        Ok(())
    }

    fn assume(&mut self, term: Term, holds: bool) -> Result<Chance, Memory> {
        Ok(chance_of(self.table.node(term.0 as usize), holds))
    }

    fn facts(&self, term: Term) -> Facts {
        self.table.facts(term.0 as usize)
    }

    fn node(&self, term: Term) -> Node {
        self.table.node(term.0 as usize)
    }

    fn in_scope(&self, term: Term) -> bool {
        (term.0 as usize) < self.table.len()
    }

    fn mark(&self) -> TermMark {
        TermMark {
            count: self.table.len(),
        }
    }

    fn leave(&mut self, mark: &TermMark) {
        self.table.truncate(mark.count);
    }

    fn open_phi(&mut self, assumed: &Facts) -> Result<Term, Memory> {
        self.table.push(Node::Phi, *assumed)
    }

    fn close_phi(&mut self, phi: Term, arguments: &[Term]) -> Result<(), Memory> {
        Ok(())
    }

    fn covers(&self, assumed: &Facts, back: Term) -> bool {
        is_narrower(&self.facts(back), assumed)
    }

    fn widen(&self, assumed: &Facts, back: Term, how: Widening) -> Facts {
        widened(assumed, &self.facts(back), how)
    }
}
