//! Laws of the definitions that contracts cite. The function does nothing: it is here for what its contract says, and the lemmas
//! that other crates' proofs cite stand in `specs/Laws`.
ghost use Rattle.std.specs.Prelude.{◌≡◌, ℕ, suc, List};
ghost use Rattle.image_form.specs.declared.image.Image.{Image};
ghost use Rattle.rv_machine.specs.After.{machine_after};
ghost use Rattle.audited_machine.specs.Audit.{audit_after, IsAccounted};

/// As long as the account is true, the audited machine without it is the machine: the same state, input, output and answer. What
/// is true after a step was true before it.
pub fn audited_machine_is_the_machine()
    ensures erased { (image : Image) (input : List ℕ) (n : ℕ) → IsAccounted image input n →
        (audit_after image input n).moment ≡ machine_after image input n }
    ensures before { (image : Image) (input : List ℕ) (n : ℕ) → IsAccounted image input (suc n) → IsAccounted image input n }
{}
