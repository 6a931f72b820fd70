//! Examples, each computed from the definitions alone. The functions do nothing: each is here for what its contract
//! says. The programs stand in `specs/Examples`, each beside the C that it stands for.
ghost use Rattle.std.specs.Prelude.{◌≡◌, ℕ, ◌≤◌, [], ◌∷◌};
ghost use Rattle.word_ops.specs.Stack.{bytes_of_objects};
ghost use Rattle.word_ops.specs.Run.{End};
ghost use Rattle.core_lang.specs.declared.program.CoreFunction.{CoreFunction};
ghost use Rattle.core_lang.specs.declared.program.Program.{Program};
ghost use Rattle.core_lang.specs.WellFormed.{AreActsIn, places_in, IsUnits, IsWellFormed};
ghost use Rattle.core_lang.specs.Counts.{count_of_acts, assigned_below};
ghost use Rattle.core_lang.specs.Addresses.{IsLayoutOf};
ghost use Rattle.core_lang.specs.Examples.{adds, breaks, calls_none, calls_with_one, compares, compares_dead, compares_live, copies, copies_bytes, copies_on, differs, divides, divides_least, drops_nothing, echoes, ends, enters_other, enters_twice, exits_with_pointer, falls, fills, follows_table, forever, is_null, keeps_dead, moves, nested_loops, outcome, program, puts_and_exits, puts_pointer, reads_dead, reads_new, reads_pointer, reads_string, reads_whole, recursion, returns_large, shifts, shifts_signed, spacious, starts_as_zero, stores_pointer, sum, swapped, swaps, tests_dead, tests_live, through_null, undefined, uses_nothing, writes_string, writes_table};
ghost use Rattle.core_lang.specs.Instances.{behind_branch, in_branch, in_both, out_of_one, out_of_two};

use crate::act::{Atom, Core};

/// Loops, blocks and breaks: where a loop ends, what a clock cuts, and what a break leaves.
pub fn loops_and_breaks()
    ensures sum_ends { outcome sum [] 1 100 ≡ ends (End.Exit 45) [] 10 0 }
    ensures sum_just_ends { outcome sum [] 1 10 ≡ ends (End.Exit 45) [] 10 0 }
    ensures sum_is_cut { outcome sum [] 1 9 ≡ ends End.More [] 9 0 }
    ensures swaps_odd { outcome swaps (51 ∷ []) 1 100 ≡ ends (End.Exit 2) [] 4 1 }
    ensures swaps_even { outcome swaps (52 ∷ []) 1 100 ≡ ends (End.Exit 1) [] 5 1 }
    ensures break_one { outcome (breaks 0) [] 1 100 ≡ ends (End.Exit 9) (99 ∷ 98 ∷ 97 ∷ []) 3 0 }
    ensures break_two { outcome (breaks 1) [] 1 100 ≡ ends (End.Exit 9) (98 ∷ 97 ∷ []) 2 0 }
    ensures break_three { outcome (breaks 2) [] 1 100 ≡ ends (End.Exit 9) (97 ∷ []) 1 0 }
    ensures break_loops { outcome nested_loops [] 1 100 ≡ ends (End.Exit 9) (97 ∷ []) 1 0 }
    ensures forever_is_cut { outcome forever [] 1 1000 ≡ ends End.More [] 1000 0 }
    ensures falls_ends { outcome falls [] 1 0 ≡ ends (End.Exit 0) [] 0 0 }
{}

/// Calls: a call that is too deep and one that is not, a clock that is cut by one, and values that were not
/// given.
pub fn calls_to_a_depth()
    ensures recursion_ends { outcome recursion [] 4 100 ≡ ends (End.Exit 7) [] 3 0 }
    ensures recursion_is_deep { outcome recursion [] 3 100 ≡ ends End.Deep [] 3 0 }
    ensures recursion_is_cut { outcome recursion [] 4 2 ≡ ends End.More [] 2 0 }
    ensures main_is_deep { outcome recursion [] 0 100 ≡ ends End.Deep [] 0 0 }
    ensures swapped_ends { outcome swapped [] 2 100 ≡ ends (End.Exit 2) [] 1 0 }
    ensures uses_nothing_undefined { outcome uses_nothing [] 2 100 ≡ undefined }
    ensures drops_nothing_ends { outcome drops_nothing [] 2 100 ≡ ends (End.Exit 9) [] 1 0 }
    ensures calls_with_one_undefined { outcome calls_with_one [] 2 100 ≡ undefined }
    ensures calls_none_undefined { outcome calls_none [] 2 100 ≡ undefined }
{}

/// Operations: each way in which one is undefined, beside a neighbour that is not.
pub fn operations()
    ensures divides_by_zero { outcome (divides 0) [] 1 0 ≡ undefined }
    ensures divides_by_two { outcome (divides 2) [] 1 0 ≡ ends (End.Exit 3) [] 0 0 }
    ensures adds_too_much { outcome (adds 48) [] 1 0 ≡ undefined }
    ensures adds_just_enough { outcome (adds 47) [] 1 0 ≡ ends (End.Exit 255) [] 0 0 }
    ensures shifts_too_far { outcome (shifts 32) [] 1 0 ≡ undefined }
    ensures shifts_far { outcome (shifts 31) [] 1 0 ≡ ends (End.Exit 0) [] 0 0 }
    ensures moves_too_far { outcome (moves 9) [] 1 0 ≡ undefined }
    ensures moves_to_end { outcome (moves 8) [] 1 0 ≡ ends (End.Exit 9) [] 0 0 }
    ensures compares_objects { outcome (compares 1) [] 1 0 ≡ undefined }
    ensures compares_places { outcome (compares 0) [] 1 0 ≡ ends (End.Exit 0) [] 0 0 }
    ensures divides_least_by_minus_one { outcome (divides_least 4294967295) [] 1 0 ≡ undefined }
    ensures divides_least_by_one { outcome (divides_least 1) [] 1 0 ≡ ends (End.Exit 0) [] 0 0 }
    ensures shifts_into_sign { outcome (shifts_signed 31) [] 1 0 ≡ undefined }
    ensures shifts_below_sign { outcome (shifts_signed 30) [] 1 0 ≡ ends (End.Exit 0) [] 0 0 }
    ensures differs_between_objects { outcome (differs 1) [] 1 0 ≡ undefined }
    ensures differs_within_object { outcome (differs 0) [] 1 0 ≡ ends (End.Exit 8) [] 0 0 }
{}

/// Objects and accesses: entered anew, filled, dead, constant, unset, misaligned, outside, null, each beside a
/// neighbour.
pub fn objects_and_accesses()
    ensures reads_unset { outcome (reads_new 4) [] 1 0 ≡ undefined }
    ensures reads_stored { outcome (reads_new 0) [] 1 0 ≡ ends (End.Exit 7) [] 0 0 }
    ensures reads_misaligned { outcome (reads_new 2) [] 1 0 ≡ undefined }
    ensures reads_outside { outcome (reads_new 8) [] 1 0 ≡ undefined }
    ensures enters_anew { outcome enters_twice [] 1 0 ≡ undefined }
    ensures enters_another { outcome enters_other [] 1 0 ≡ ends (End.Exit 7) [] 0 0 }
    ensures filled { outcome fills [] 1 0 ≡ ends (End.Exit 0) [] 0 0 }
    ensures reads_dead_undefined { outcome reads_dead [] 2 100 ≡ undefined }
    ensures keeps_dead_ends { outcome keeps_dead [] 2 100 ≡ ends (End.Exit 9) [] 1 0 }
    ensures reads_string_ends { outcome reads_string [] 1 0 ≡ ends (End.Exit 105) [] 0 0 }
    ensures writes_string_undefined { outcome writes_string [] 1 0 ≡ undefined }
    ensures writes_table_ends { outcome writes_table [] 1 0 ≡ ends (End.Exit 9) [] 0 0 }
    ensures follows_table_ends { outcome follows_table [] 1 0 ≡ ends (End.Exit 105) [] 0 0 }
    ensures through_null_undefined { outcome through_null [] 1 0 ≡ undefined }
    ensures is_null_ends { outcome is_null [] 1 0 ≡ ends (End.Exit 1) [] 0 0 }
    ensures tests_dead_undefined { outcome tests_dead [] 2 100 ≡ undefined }
    ensures tests_live_true { outcome tests_live [] 1 0 ≡ ends (End.Exit 1) [] 0 0 }
    ensures compares_dead_undefined { outcome compares_dead [] 2 100 ≡ undefined }
    ensures compares_live_ends { outcome compares_live [] 1 0 ≡ ends (End.Exit 0) [] 0 0 }
    ensures reads_part { outcome reads_pointer [] 1 0 ≡ undefined }
    ensures reads_whole_ends { outcome reads_whole [] 1 0 ≡ ends (End.Exit 1) [] 0 0 }
    ensures stores_part { outcome stores_pointer [] 1 0 ≡ undefined }
{}

/// Copies: pointers whole and in part, bytes, and ranges that overlap.
pub fn copying()
    ensures copies_pointers { outcome (copies 4) [] 1 0 ≡ ends (End.Exit 105) [] 0 0 }
    ensures copies_parts { outcome (copies 1) [] 1 0 ≡ undefined }
    ensures copies_bytes_ends { outcome (copies_bytes 2) [] 1 0 ≡ ends (End.Exit 1) [] 0 0 }
    ensures copies_overlapping { outcome (copies_on 2) [] 1 0 ≡ undefined }
    ensures copies_onto_itself { outcome (copies_on 0) [] 1 0 ≡ ends (End.Exit 9) [] 0 0 }
    ensures copies_beside { outcome (copies_on 4) [] 1 0 ≡ ends (End.Exit 9) [] 0 0 }
{}

/// The outside: the end of the input, the low bytes of what is put and of a status, and ticks behind each.
pub fn input_and_output()
    ensures gets_the_end { outcome echoes (65 ∷ []) 1 100 ≡ ends (End.Exit 255) (65 ∷ []) 3 1 }
    ensures puts_before_a_tick { outcome echoes (65 ∷ []) 1 1 ≡ ends End.More (65 ∷ []) 1 1 }
    ensures gets_before_a_tick { outcome echoes (65 ∷ []) 1 0 ≡ ends End.More [] 0 1 }
    ensures leaves_input { outcome echoes (65 ∷ 66 ∷ 67 ∷ []) 1 100 ≡ ends (End.Exit 66) (65 ∷ []) 3 2 }
    ensures low_bytes { outcome puts_and_exits [] 1 100 ≡ ends (End.Exit 44) (97 ∷ []) 1 0 }
    ensures low_status { outcome returns_large [] 1 100 ≡ ends (End.Exit 44) [] 0 0 }
    ensures puts_no_pointer { outcome puts_pointer [] 1 100 ≡ undefined }
    ensures starts_as_zero_ends { outcome starts_as_zero [] 1 0 ≡ ends (End.Exit 0) [] 0 0 }
    ensures exits_with_no_pointer { outcome exits_with_pointer [] 1 100 ≡ undefined }
{}

/// Well-formed programs: one of the examples is well formed, and its layout keeps its objects apart while no more than
/// 200 calls are nested; acts that are not well formed stand beside neighbours that are.
pub fn well_formed_programs()
    ensures formed { IsWellFormed (program sum) }
    ensures laid_out { IsLayoutOf spacious (program sum) 200 }
    ensures behind_a_branch { (p : Program) (g : CoreFunction) → g.vars ≡ 4 → AreActsIn p g 0 [] behind_branch → ⊥ }
    ensures in_a_branch { (p : Program) (g : CoreFunction) → g.vars ≡ 4 → g.temps ≡ 8 → AreActsIn p g 0 [] in_branch }
    ensures temporary_in_both { places_in 4 (in_both 4) ≡ 2 }
    ensures variable_in_both { (x : ℕ) → 4 ≤ x → places_in x (in_both 3) ≤ 1 }
    ensures break_out_of_one { (p : Program) (g : CoreFunction) → AreActsIn p g 0 [] out_of_one → ⊥ }
    ensures break_out_of_two { (p : Program) (g : CoreFunction) → AreActsIn p g 0 [] out_of_two }
    ensures six_in_fours { IsUnits 6 4 → ⊥ }
    ensures six_in_twos { IsUnits 6 2 }
{}

/// Counts: of the acts of the sum and its variables, of a fill and a copy of 7 bytes, and of the bytes of objects.
pub fn counts()
    ensures sum_counts { count_of_acts (8 ∷ 8 ∷ 4 ∷ []) sum ≡ 11 }
    ensures sum_assigns { assigned_below 4 sum ≡ 2 }
    ensures fill_counts { count_of_acts (7 ∷ []) (Core.Fill 0 ∷ []) ≡ 3 }
    ensures copy_counts { count_of_acts [] (Core.Copy (Atom.Global 0) (Atom.Global 1) 7 1 ∷ []) ≡ 14 }
    ensures objects_take { bytes_of_objects (8 ∷ 8 ∷ 4 ∷ []) ≡ 48 }
{}
