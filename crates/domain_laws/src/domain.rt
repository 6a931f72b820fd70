//! The trait of an abstract domain: its calls with what each promises, and its laws. What its clients need of it
//! stands in docs/DOMAIN_CLIENTS.md.

ghost use Rattle.std.specs.Prelude.{◌≡◌, ◌↔◌, ℕ, Bool, true, false, IfOk, OnOk, OnErr, IsTrue, Some};
ghost use Rattle.word_ops.specs.declared.operation.Op.{Op};
ghost use Rattle.word_ops.specs.declared.operation.Width.{Width};
ghost use Rattle.word_ops.specs.Store.{Value, Number, Store};
ghost use Rattle.word_ops.specs.Access.{write};
ghost use Rattle.word_ops.specs.Values.{value_of_operation};
ghost use Rattle.word_ops.specs.Addresses.{word_of_value, IsValueIn};
ghost use Rattle.word_ops.specs.Changes.{SameRegions, Fades};
ghost use Rattle.term_form.specs.declared.term.Node.{Node};
ghost use Rattle.term_form.specs.declared.term.Node.TheVariants as nodes;
ghost use Rattle.term_form.specs.declared.facts.Facts.{Facts};
ghost use Rattle.term_form.specs.Meets.{Meets};
ghost use Rattle.term_form.specs.Narrower.{IsNarrower};
ghost use Rattle.term_form.specs.Walk.{Values};
ghost use Rattle.domain_laws.specs.declared.chance.Chance.TheVariants.{Possible};
ghost use Rattle.domain_laws.specs.World.{World, IsWorld, IsOfRoot, with_values, with_store, word_of_term};
ghost use Rattle.domain_laws.specs.Promises.{Keeps, Narrows, Extends, Adds, Same, Brings, BringsNone, HasNodeAlone, IsOneTerm, IsObject, IsMadeBy, IsOverScope, Gives, Loads, Changes, Decides, Restores, NodeSays, RecallsWord};
ghost use Rattle.domain_laws.specs.Widening.{IsWidened};

use crate::chance::Chance;
use crate::widening::Widening;
use term_form::{Facts, Node, Root, Term};
use word_ops::{Memory, Op, Width};

/// An abstract domain: a state that makes terms, tells what it knows of their words, and stands for worlds.
///
/// A world gives each term a value, holds a store, and knows the regions of the objects whose addresses are roots
/// (`specs/World`). The clauses of each call are written with the words of `specs/Promises`; the laws stand behind the calls.
/// A domain may give again the numbers of terms that a leave took out of scope.
///
/// Each call asks that the terms that are handed in are in scope, but for the arguments of `close_phi` and the term of
/// `in_scope`. The one refusal is `Memory`, and after it everything that can be told of the domain is as it was.
pub trait Domain: Drop {
    /// A point to which `leave` goes back.
    type Mark: Drop;

    /// The domain stands for this world.
    ghost stands: { Self → World → Type 0 };

    /// The term of this number is in scope.
    ghost has: { Self → ℕ → Type 0 };

    /// How the word of a term in scope comes about.
    ghost node_of: { Self → ℕ → Node };

    /// What is known of the word of a term in scope.
    ghost facts_of: { Self → ℕ → Facts };

    /// The mark was made at the second state, and neither it nor an older one was left since.
    ghost marked: { Self → Self.Mark → Self → Type 0 };

    /// The same, and since then only konst, root, operate, load, open_phi, calls that change nothing and leaves of this kind
    /// were made.
    ghost light: { Self → Self.Mark → Self → Type 0 };

    /// What holds of a term of an operation, of the nodes and the facts of its operands as it was made, and of its own facts
    /// then.
    ghost fits: { Op → Node → Node → Facts → Facts → Facts → Type 0 };

    /// What holds of the node and the facts of a term that may have a truth.
    ghost opens: { Node → Facts → Bool → Type 0 };

    /// Whether an operation is answered by the term in scope of the same operation and operands, where there is one, and by a
    /// new one of this very operation else.
    ghost shares: { Bool } = { false };

    /// Whether loads are recalled.
    ghost remembers: { Bool };

    /// A load of this width through the term of this number is recalled.
    ghost recalls: { Self → ℕ → Width → Type 0 };

    /// A term of that word.
    fn konst(&mut self, word: u32) -> Result<Term, Memory>
        ensures same { OnErr result (Same stands has node_of facts_of marked light recalls self.old self.new) }
        ensures extends { OnOk result (Extends has node_of facts_of marked self.old self.new) }
        ensures adds { OnOk result (Adds light recalls self.old self.new) }
        ensures brings { IfOk result (λ t. Brings has self.old self.new t.0) }
        ensures node { IfOk result (λ t. node_of self.new t.0 ≡ nodes.Konst word) }
        ensures alone { IfOk result (λ t. (has self.old t.0 → ⊥) → HasNodeAlone has node_of self.old self.new t.0) }
        ensures value { IfOk result (λ t. Gives stands has self.old self.new t.0 (λ w v. v ≡ Number word)) };

    /// A term for the word of a root: a new one, but that each object has one term.
    fn root(&mut self, root: Root) -> Result<Term, Memory>
        ensures same { OnErr result (Same stands has node_of facts_of marked light recalls self.old self.new) }
        ensures extends { OnOk result (Extends has node_of facts_of marked self.old self.new) }
        ensures adds { OnOk result (Adds light recalls self.old self.new) }
        ensures brings { IfOk result (λ t. Brings has self.old self.new t.0) }
        ensures node { IfOk result (λ t. (has self.old t.0 → ⊥) → node_of self.new t.0 ≡ nodes.Root root) }
        ensures fresh { IfOk result (λ t. (IsObject root → ⊥) → has self.old t.0 → ⊥) }
        ensures object { IfOk result (λ t. IsObject root → node_of self.new t.0 ≡ nodes.Root root) }
        ensures alone { IfOk result (λ t. (has self.old t.0 → ⊥) → IsObject root → HasNodeAlone has node_of self.old self.new t.0) }
        ensures value { IfOk result (λ t. Gives stands has self.old self.new t.0 (λ w v. IsOfRoot w root v)) };

    /// A term whose word is that of the operation, wherever it is defined.
    fn operate(&mut self, op: Op, a: Term, b: Term) -> Result<Term, Memory>
        requires first { has self.old a.0 }
        requires second { has self.old b.0 }
        ensures same { OnErr result (Same stands has node_of facts_of marked light recalls self.old self.new) }
        ensures extends { OnOk result (Extends has node_of facts_of marked self.old self.new) }
        ensures adds { OnOk result (Adds light recalls self.old self.new) }
        ensures brings { IfOk result (λ t. Brings has self.old self.new t.0) }
        ensures made { IfOk result (λ t. (has self.old t.0 → ⊥) → IsMadeBy op a b (node_of self.new t.0)) }
        ensures alone { IfOk result (λ t. (has self.old t.0 → ⊥) → HasNodeAlone has node_of self.old self.new t.0) }
        ensures shared { IfOk result (λ t. shares ≡ true → IsOneTerm has node_of self.old self.new t.0 (nodes.Operate op a b)) }
        ensures fits { IfOk result (λ t. (has self.old t.0 → ⊥) → node_of self.new t.0 ≡ nodes.Operate op a b →
            fits op (node_of self.old a.0) (node_of self.old b.0) (facts_of self.old a.0) (facts_of self.old b.0) (facts_of self.new t.0)) }
        ensures value { IfOk result (λ t. Gives stands has self.old self.new t.0 (λ w v. value_of_operation w.store op (w.values a.0) (w.values b.0) ≡ Some v)) };

    /// A term for what a load gives here, wherever it is defined. Where loads are recalled, one that is brings no term into
    /// scope. A domain over another one leaves the facts of the answer as that one tells them: a term that was there need not
    /// have a word in the range of the width.
    fn load(&mut self, width: Width, pointer: Term) -> Result<Term, Memory>
        requires { has self.old pointer.0 }
        ensures same { OnErr result (Same stands has node_of facts_of marked light recalls self.old self.new) }
        ensures extends { OnOk result (Extends has node_of facts_of marked self.old self.new) }
        ensures adds { OnOk result (Adds light recalls self.old self.new) }
        ensures brings { IfOk result (λ t. Brings has self.old self.new t.0) }
        ensures node { IfOk result (λ t. (has self.old t.0 → ⊥) → node_of self.new t.0 ≡ nodes.Load width pointer) }
        ensures remembered { OnOk result (remembers ≡ true → recalls self.new pointer.0 width) }
        ensures recalled { IfOk result (λ t. recalls self.old pointer.0 width → has self.old t.0) }
        ensures value { IfOk result (λ t. Loads stands has self.old self.new t.0 width pointer.0) };

    /// The state after a store of the low bytes of a value, wherever it is defined. Where loads are recalled, one of the word
    /// that was stored is.
    fn store(&mut self, width: Width, pointer: Term, value: Term) -> Result<(), Memory>
        requires place { has self.old pointer.0 }
        requires stored { has self.old value.0 }
        ensures same { OnErr result (Same stands has node_of facts_of marked light recalls self.old self.new) }
        ensures extends { OnOk result (Extends has node_of facts_of marked self.old self.new) }
        ensures brings { OnOk result (BringsNone has self.old self.new) }
        ensures remembered { OnOk result (remembers ≡ true → RecallsWord recalls self.new pointer.0 width) }
        ensures stored { OnOk result (Changes stands self.old self.new (λ w s. write w.store width (w.values pointer.0) (w.values value.0) ≡ Some s)) };

    /// The state after any stores: the old regions keep their sizes, flags and addresses, and there may be further ones.
    fn clobber(&mut self) -> Result<(), Memory>
        ensures same { OnErr result (Same stands has node_of facts_of marked light recalls self.old self.new) }
        ensures extends { OnOk result (Extends has node_of facts_of marked self.old self.new) }
        ensures brings { OnOk result (BringsNone has self.old self.new) }
        ensures any { OnOk result (Changes stands self.old self.new (λ w s. SameRegions w.store s × IsWorld s w.home)) };

    /// Whether a term can have this truth: `Never` only where no world for which the domain stands has it. After `Possible`
    /// the domain stands for the worlds that have it, and facts may be narrower until a leave. After `Never` only scope, nodes
    /// and marks are as they were.
    fn assume(&mut self, term: Term, holds: bool) -> Result<Chance, Memory>
        requires { has self.old term.0 }
        ensures same { OnErr result (Same stands has node_of facts_of marked light recalls self.old self.new) }
        ensures keeps { OnOk result (Keeps has node_of marked self.old self.new) }
        ensures narrows { IfOk result (λ c. c ≡ Possible → Narrows has facts_of self.old self.new) }
        ensures brings { OnOk result (BringsNone has self.old self.new) }
        ensures recalled { OnOk result ((p : ℕ) (k : Width) → recalls self.old p k → recalls self.new p k) }
        ensures opens { IfOk result (λ c. c ≡ Possible → opens (node_of self.old term.0) (facts_of self.old term.0) holds) }
        ensures decides { IfOk result (λ c. Decides stands self.old self.new term.0 holds c) };

    /// What is known of the term's word here. Takes no memory.
    fn facts(&self, term: Term) -> Facts
        requires { has self.now term.0 }
        ensures is { result ≡ facts_of self.now term.0 }
        ensures meets { (w : World) → stands self.now w → Meets result (word_of_term w term.0) };

    /// How the term's word comes about. Takes no memory.
    fn node(&self, term: Term) -> Node
        requires { has self.now term.0 }
        ensures is { result ≡ node_of self.now term.0 }
        ensures closed { IsOverScope (has self.now) result };

    /// Whether a term of that number is in scope. Takes no memory.
    fn in_scope(&self, term: Term) -> bool
        ensures { IsTrue result ↔ has self.now term.0 };

    /// Marks the present scope. Takes no memory.
    fn mark(&self) -> Self::Mark
        ensures made { marked self.now result self.now }
        ensures is_light { light self.now result self.now };

    /// Goes back to a mark of this domain that is good: all newer terms leave the scope, and what was assumed since is
    /// forgotten. The mark stays good. Takes no memory.
    ///
    /// The domain stands for each world for which it stood at the mark, and for each for which it stands now. Where since the
    /// mark only calls were made that add terms, everything that can be told is as it was there.
    fn leave(&mut self, mark: &Self::Mark)
        requires { (d : Self) × marked self.old mark.now d }
        ensures restores { (d : Self) → marked self.old mark.now d → Restores stands has node_of facts_of marked d self.new }
        ensures stays { (w : World) → stands self.old w → stands self.new w }
        ensures same { (d : Self) → light self.old mark.now d → Same stands has node_of facts_of marked light recalls d self.new };

    /// A new term whose word meets these facts.
    fn open_phi(&mut self, assumed: &Facts) -> Result<Term, Memory>
        ensures same { OnErr result (Same stands has node_of facts_of marked light recalls self.old self.new) }
        ensures extends { OnOk result (Extends has node_of facts_of marked self.old self.new) }
        ensures adds { OnOk result (Adds light recalls self.old self.new) }
        ensures brings { IfOk result (λ t. Brings has self.old self.new t.0) }
        ensures fresh { IfOk result (λ t. has self.old t.0 → ⊥) }
        ensures node { IfOk result (λ t. node_of self.new t.0 ≡ nodes.Phi) }
        ensures assumed { IfOk result (λ t. IsNarrower (facts_of self.new t.0) assumed.now) }
        ensures value { IfOk result (λ t. Gives stands has self.old self.new t.0 (λ w v. IsValueIn w.store v × Meets assumed.now (word_of_value w.store v))) };

    /// Tells the arguments of a phi, one for each edge; they need not be in scope.
    fn close_phi(&mut self, phi: Term, arguments: &[Term]) -> Result<(), Memory>
        requires { has self.old phi.0 }
        ensures same { OnErr result (Same stands has node_of facts_of marked light recalls self.old self.new) }
        ensures extends { OnOk result (Extends has node_of facts_of marked self.old self.new) }
        ensures brings { OnOk result (BringsNone has self.old self.new) }
        ensures recalled { OnOk result ((p : ℕ) (k : Width) → recalls self.old p k → recalls self.new p k) }
        ensures stays { OnOk result ((w : World) → stands self.old w → stands self.new w) };

    /// Whether every word that the term can have meets the facts that were assumed; true at least where its own facts are
    /// narrower. Takes no memory.
    fn covers(&self, assumed: &Facts, back: Term) -> bool
        requires { has self.now back.0 }
        ensures sound { IsTrue result → (w : World) → stands self.now w → Meets assumed.now (word_of_term w back.0) }
        ensures whole { IsNarrower (facts_of self.now back.0) assumed.now → IsTrue result };

    /// The facts to assume next where the term was not covered: what `widened` gives for its own facts. Takes no memory.
    fn widen(&self, assumed: &Facts, back: Term, how: Widening) -> Facts
        requires { has self.now back.0 }
        ensures is { IsWidened assumed.now (facts_of self.now back.0) how result };

    /// A domain speaks of the values of the terms in scope alone.
    ghost local: { (d : Self) (w : World) (u : Values) → ((x : ℕ) → has d x → w.values x ≡ u x) → stands d w → stands d (with_values w u) };

    /// Each world that a domain stands for is one.
    ghost sound: { (d : Self) (w : World) → stands d w → IsWorld w.store w.home };

    /// The value of each term in scope is one of the store.
    ghost inside: { (d : Self) (w : World) (x : ℕ) → stands d w → has d x → IsValueIn w.store (w.values x) };

    /// Cells may be made Unset.
    ghost fades: { (d : Self) (w : World) (s : Store) → Fades w.store s → stands d w → stands d (with_store w s) };

    /// The value of each term in scope is what its node says.
    ghost node_is: { (d : Self) (w : World) (x : ℕ) → stands d w → has d x → NodeSays w (node_of d x) (w.values x) };

    /// A term that was in scope at a mark stays there until the mark is left.
    ghost older: { (m : Self.Mark) (d e : Self) (x : ℕ) → marked d m e → has e x → has d x };

    /// A term that is not out of scope is in scope.
    ghost stable: { (d : Self) (x : ℕ) → ((has d x → ⊥) → ⊥) → has d x };

    /// A light mark is a mark.
    ghost light_is: { (m : Self.Mark) (d e : Self) → light d m e → marked d m e };

    /// What fits with the facts of the operands fits with wider ones.
    ghost fits_wider: { (op : Op) (j k : Node) (f g h f' g' : Facts) → IsNarrower f f' → IsNarrower g g' → fits op j k f g h → fits op j k f' g' h };

    /// What is open with facts is open with wider ones.
    ghost opens_wider: { (j : Node) (f f' : Facts) (holds : Bool) → IsNarrower f f' → opens j f holds → opens j f' holds };
}
