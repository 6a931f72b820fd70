//! What names stand for (C11 6.2.1, 6.2.3), and all that typing knows at a place of a source.
//! Values that typing gives on its way; no walk stands here.

use crate::fault::Fault;
use c_layout::Tags;
use c_tree::typed::{CType, StaticObject, StaticPart};
use scope_map::ScopeMap;
use word_ops::{Items, Text};

/// What an ordinary identifier stands for (C11 6.2.3p1). A type that has a fault in it is none, and nothing is asked
/// of it.
#[derive(Drop)]
pub enum Meaning {
    /// a typedef name (C11 6.7.8)
    TypedefOf(CType),
    /// an enumeration constant, by its value as a word (C11 6.7.2.2p3)
    EnumeratorOf(u32),
    /// an automatic object
    Automatic {
        /// its type
        ctype: CType,
        /// its place among those in scope
        place: u32,
        /// its number in the function
        number: u32,
        /// whether it is `register` (C11 6.7.1p6)
        in_register: bool,
    },
    /// a static object of a function: its type, and its number in the unit
    Static(CType, u32),
    /// an object or a function with linkage (C11 6.2.2): its type
    Linked(CType),
    /// a name of whose type nothing is known
    Unknown,
}

/// What a tag stands for (C11 6.7.2.3).
#[derive(Clone, Copy, PartialEq, Eq)]
pub enum Tag {
    /// the structure type of this number, and whether a list of its members has begun
    StructTag(u32, bool),
    /// the enumerated type of this number, and whether the list of its enumerators has ended (C11 6.7.2.2p4)
    EnumTag(u32, bool),
}

/// An automatic object that the present block declares (C11 6.2.4p5).
#[derive(Drop)]
pub struct Local {
    /// its type
    pub ctype: CType,
    /// its number in the function
    pub number: u32,
}

/// What has linkage in the unit (C11 6.2.2).
#[derive(Drop)]
pub struct Linkage {
    /// its type, as all its declarations tell it
    pub ctype: CType,
    /// whether it has been defined
    pub defined: bool,
}

/// What a scope and those in it have declared, where it is set aside (C11 6.2.1).
#[derive(Drop)]
pub struct Scope {
    /// the ordinary identifiers, the oldest first
    pub names: ScopeMap<Text, Meaning>,
    /// the tags, the oldest first
    pub tags: ScopeMap<Text, Tag>,
}

/// What a walk over a unit has found so far.
#[derive(Drop)]
pub struct State {
    /// the ordinary identifiers that are visible, the oldest first: in a function definition those of its own scope
    pub names: ScopeMap<Text, Meaning>,
    /// the tags that are visible, the oldest first, of the same scope
    pub tags: ScopeMap<Text, Tag>,
    /// file scope, as long as the scope of a function definition stands in it (C11 6.2.1p4)
    pub outer: Scope,
    /// the scope of a function definition from the end of its parameter list to its block
    pub listed: Scope,
    /// the structure types
    pub structs: Tags,
    /// of each structure type whether a member of it is `const`, or has a member or an element that is (C11 6.3.2.1p1)
    pub fixed: Items<bool>,
    /// how many enumerated types there are
    pub enums: u32,
    /// what has linkage, the oldest declaration first; the last one of a name has the type of all
    pub linked: ScopeMap<Text, Linkage>,
    /// what stands in file-level objects as the program begins
    pub starts: ScopeMap<Text, Items<StaticPart>>,
    /// the string literals and the static objects of functions; their numbers follow those of the file-level objects
    pub statics: Items<StaticObject>,
    /// how many automatic objects the function has declared
    pub declared: u32,
    /// those of the present block
    pub own: Items<Local>,
    /// the numbers of those under `&`
    pub addressed: Items<u32>,
    /// what no kind of fault refuses and this profile has no typed tree for: structures as parameters and as values of
    /// calls
    pub unready: Items<Fault>,
}
