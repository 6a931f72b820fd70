//! The loop of the runner: instructions up to one that traps or calls the environment.
ghost use Rattle.std.specs.Prelude.{◌≡◌, ◌+◌, ◌^◌, ◌<◌, ◌≤◌, length, ℕ, IsTrue, IfSome, IsNone, IsSome};
ghost use Rattle.std.specs.List.{list_all};
ghost use Rattle.std.specs.Option.{option_copied};
ghost use Rattle.rv_machine.specs.State.{State, state};
ghost use Rattle.rv_machine.specs.Decoded.{action_in, decoded_at, is_in_range, MovesIn, stops};
ghost use Rattle.rv_machine.specs.Pause.{stopped};
ghost use Rattle.rv_machine.specs.Pc.{index_of};

use crate::act::act;
use crate::decoded::Decoded;
use crate::pc::Pc;
use crate::registers::Registers;
use rv_table::Row;

/// Why the machine does not go on by itself.
#[derive(Clone, Copy)]
pub enum Stop {
    /// it calls its environment
    Call,
    /// it traps
    Trap,
}

/// How many instructions ran, where the machine is then, and why it stopped, if it did.
#[derive(Clone, Copy)]
pub struct Stretch {
    pub steps: u64,
    pub pc: Pc,
    pub stop: Option<Stop>,
}

/// The instruction at an address.
#[inline(always)]
pub fn fetch(code: &[Decoded], pc: Pc) -> Option<&Decoded>
    requires range { IsTrue (list_all is_in_range code.now) }
    requires words { length code.now ≤ 2 ^ 28 }
    ensures value { option_copied result ≡ decoded_at code.now pc }
    ensures range { IfSome result (λ i. IsTrue (is_in_range i.now)) }
    ensures text { IsSome result → index_of pc < 2 ^ 28 }
{
    let k = pc.index();
    if k < code.len() { Some(&code[k]) } else { None }
}

/// Why a row does not go on.
fn stop_at(row: Row) -> Stop
    ensures { (m : State) → stopped result m ≡ stops row m }
{
    match row {
        Row::Ecall => Stop::Call,
        _ => Stop::Trap,
    }
}

/// Runs at most so many instructions, up to the first that traps or calls the environment.
#[inline(never)]
pub fn run_stretch(
    code: &[Decoded],
    mut pc: Pc,
    registers: &mut Registers,
    memory: &mut [u8],
    base: u32,
    steps: u64,
) -> Stretch
    requires range { IsTrue (list_all is_in_range code.now) }
    requires words { length code.now ≤ 2 ^ 28 }
    requires room { base + length memory.old ≤ 2 ^ 32 }
    ensures moves { MovesIn code.now result.steps (state registers.old pc base memory.old) (state registers.new result.pc base memory.new) }
    ensures all { IsNone result.stop → result.steps ≡ steps }
    ensures some { IsSome result.stop → result.steps < steps }
    ensures stop { IfSome result.stop (λ stop. let m = (state registers.new result.pc base memory.new) in action_in code.now m ≡ stopped stop m) }
{
    for done in 0..steps {
        let Some(i) = fetch(code, pc) else {
            return Stretch {
                steps: done,
                pc,
                stop: Some(Stop::Trap),
            };
        };
        match act(i, pc, registers, memory, base) {
            Some(next) => pc = next,
            None => {
                return Stretch {
                    steps: done,
                    pc,
                    stop: Some(stop_at(i.row)),
                };
            }
        }
    }
    Stretch {
        steps,
        pc,
        stop: None,
    }
}
