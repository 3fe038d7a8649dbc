//! Laws of the spelling that this crate's contracts cite. Each function does nothing: its contract
//! is the law.
ghost use Rattle.std.specs.Prelude.{◌≡◌, ℕ, List, [], ◌++◌, length, Ok};
ghost use Rattle.tdl_ecode.specs.declared.instr.EInstr.{EInstr};
ghost use Rattle.tdl_ecode.specs.Spelling.{einstr_bytes, IsInRange};
ghost use Rattle.tdl_ecode.specs.Reading.{reading};

/// No spelling begins another one, and bytes are the spelling of at most one instruction and what
/// follows it.
pub fn prefix_free()
    ensures whole { (i j : EInstr) (more : List ℕ) →
        einstr_bytes i ++ more ≡ einstr_bytes j → more ≡ [] }
    ensures instr { (i j : EInstr) (x y : List ℕ) → IsInRange i → IsInRange j →
        einstr_bytes i ++ x ≡ einstr_bytes j ++ y → i ≡ j }
    ensures follows { (i j : EInstr) (x y : List ℕ) →
        einstr_bytes i ++ x ≡ einstr_bytes j ++ y → x ≡ y }
{}

/// Reading gives a spelled instruction back with the length of its spelling, whatever follows.
pub fn read_back()
    ensures { (i : EInstr) (rest : List ℕ) → IsInRange i →
        reading (einstr_bytes i ++ rest) ≡ Ok (i, length (einstr_bytes i)) }
{}
