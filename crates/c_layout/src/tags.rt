//! What is known of each tag: a structure with its members and their places (C11 6.7.2.1), or an enumerated type.
//! A table of rows by number; nothing walks a tree here.

ghost use Rattle.std.specs.Prelude.{◌≡◌, ◌++◌, ◌∷◌, [], List, length, slice_get, slice_set, true, IfOk, OnErr, Some, None};
ghost use Rattle.std.specs.Option.{option_copied};
ghost use Rattle.c_layout.specs.Tags as spec;

use c_tree::typed::CType;
use std::alloc::Global;
use std::marker::Model;
use word_ops::{Items, Memory, Text};

/// A member of a structure.
#[derive(Drop)]
pub struct MemberLayout {
    /// its name
    pub name: Text,
    /// its type
    pub ctype: CType,
    /// how many bytes from the start of the structure it lies (C11 6.7.2.1p15), at most 2^64 - 1
    pub offset: u64,
}

/// What is known of a structure type that has its members.
#[derive(Drop)]
pub struct StructLayout {
    /// its size in bytes (C11 6.5.3.4p4), at most 2^64 - 1
    pub size: u64,
    /// its alignment in bytes (C11 6.2.8)
    pub alignment: u64,
    /// its members, in the order of their declarations
    pub members: Items<MemberLayout>,
}

/// The structure types of a unit (C11 6.7.2.1, 6.7.2.3), by their numbers: each with its layout, or none
/// as long as it has no members.
#[derive(Drop)]
pub struct Tags {
    list: Items<Option<StructLayout>>,
}

impl Model for Tags {
    ghost use Rattle.std.specs.Prelude.{List, Option};
    ghost use Rattle.c_layout.specs.declared.tags.StructLayout.{StructLayout};
    ghost use Rattle.c_layout.specs.contracts.tags.StructLayout as layout;
    ghost use Rattle.std.specs.Coded.{coded_list, coded_option};

    ghost Value = { List (Option StructLayout) };

    ghost coded = { coded_list (coded_option layout.the_row.coded) };

    ghost view = { λ t. t.list };

    ghost use Rattle.std.specs.Prelude.{◌≡◌, true};
    ghost use Rattle.c_layout.specs.Tags.{are_aligned};

    ghost invariant = { λ t. are_aligned t.list ≡ true };
}

impl Tags {
    /// The list without a structure type. Takes no memory.
    pub fn new(alloc: Global) -> Self
        ensures { result ≡ [] }
    {
        Tags {
            list: Items::from_vec(Vec::new(alloc)),
        }
    }

    /// How many structure types there are.
    pub fn len(&self) -> usize
        ensures { result ≡ length self.now }
    {
        self.list.len()
    }

    /// Adds a structure type without members (C11 6.7.2.3p8), and gives its number.
    ///
    /// # Errors
    ///
    /// `Memory` where memory is wanting, and where no number below 2^32 is left; nothing has changed then.
    pub fn declare(&mut self) -> Result<u32, Memory>
        ensures number { IfOk result (λ n. n ≡ length self.old) }
        ensures added { IfOk result (λ n. self.new ≡ self.old ++ None ∷ []) }
        ensures open { IfOk result (λ n. slice_get self.new n ≡ Some None) }
        ensures kept { OnErr result (self.new ≡ self.old) }
    {
        let Ok(number) = u32::try_from(self.list.len()) else {
            return Err(Memory);
        };
        self.list.push(None)?;
        Ok(number)
    }

    /// The layout of the structure type of a number; `None` where it has no members yet, or is not in the
    /// list.
    pub fn layout(&self, tag: u32) -> Option<&StructLayout>
        ensures layout { option_copied result ≡ spec.layout_of self.now tag }
        ensures aligned { spec.is_aligned (option_copied result) ≡ true }
    {
        match self.list.get(tag as usize) {
            Some(Some(layout)) => Some(layout),
            _ => None,
        }
    }

    /// Gives a structure type its layout. Where the number is not in the list, nothing changes.
    pub fn set(&mut self, tag: u32, layout: StructLayout)
        requires { spec.is_alignment layout.alignment ≡ true }
        ensures { self.new ≡ slice_set self.old tag (Some layout) }
    {
        let at = tag as usize;
        if at < self.list.len() {
            self.list.set(at, Some(layout));
        }
    }
}
