//! Laws of what a code does. Each function does nothing: its contract is the law.
ghost use Rattle.std.specs.Prelude.{◌≡◌, ℕ, suc, ◌+◌, ◌-◌, ◌*◌, ◌^◌, List, [], ◌∷◌, drop, length, pos, neg_ℤ};
ghost use Rattle.tdl_base.specs.Bytes.{IsPrefixFree};
ghost use Rattle.tdl_stack.specs.declared.instr.Instr.{Instr};
ghost use Rattle.tdl_stack.specs.declared.instr.Instr.TheVariants.{Rep};
ghost use Rattle.tdl_stack.specs.Lawful.{body_length, cost_before};
ghost use Rattle.tdl_stack.specs.Running.{Outer, StackState, exec, cells_after, outputs_after, code_value};
ghost use Rattle.tdl_stack.specs.Spelling.{code_bytes, instr_bytes, IsInRange};
ghost use Rattle.tdl_stack.specs.Examples.{two_cells, sensing, choice_code, sum_code, repeat_code, minus_code};

/// To skip instructions is to leave them out of the text.
pub fn skipping()
    ensures { (outer : Outer) (code : List Instr) (left n : ℕ) (s : StackState) →
        exec outer code left n s ≡ exec outer (drop n code) (left - n) 0 s }
{}

/// A code makes no cell, takes none away, and changes no kind.
pub fn cells_stay()
    ensures kinds { (outer : Outer) (code : List Instr) (left skip : ℕ) (s : StackState) →
        (exec outer code left skip s).cells.kinds ≡ s.cells.kinds }
    ensures count { (outer : Outer) (code : List Instr) (left skip : ℕ) (s : StackState) →
        length (exec outer code left skip s).cells.values ≡ length s.cells.values }
{}

/// No spelling of an instruction begins another one, and bytes are the spelling of at most one
/// instruction and what follows it.
pub fn prefix_free()
    ensures { IsPrefixFree IsInRange instr_bytes }
{}

/// Small codes: a choice, a sum by repetition, a sum that wraps in its cell's kind, an expression,
/// and a spelling.
pub fn examples()
    ensures above { cells_after choice_code (two_cells (pos 5) (pos 0))
        ≡ two_cells (pos 5) (pos 1) }
    ensures below { cells_after choice_code (two_cells (neg_ℤ (pos 5)) (pos 0)) ≡
        two_cells (neg_ℤ (pos 5)) (pos 2) }
    ensures sum { cells_after repeat_code (two_cells (pos 4) (pos 10))
        ≡ two_cells (pos 4) (pos 22) }
    ensures output { outputs_after 1 1 repeat_code (two_cells (pos 4) (pos 10)) ≡ pos 22 ∷ [] }
    ensures wraps { cells_after sum_code (two_cells (pos 1) (pos (2 ^ 31 - 1))) ≡
        two_cells (pos 1) (neg_ℤ (pos (2 ^ 31))) }
    ensures number { code_value (sensing (pos 7)) minus_code ≡ neg_ℤ (pos 7) }
    ensures bytes { code_bytes sum_code ≡
        0 ∷ 0 ∷ 0 ∷ 4 ∷ 3 ∷ 0 ∷ 1 ∷ 3 ∷ 0 ∷ 0 ∷ 6 ∷ 0 ∷ 4 ∷ 0 ∷ 1 ∷ [] }
{}

/// What a code costs: an instruction without a body costs 1, and a `rep` costs 1 and as often as it
/// says what its body costs.
pub fn costs()
    ensures plain { (i : Instr) (code : List Instr) → body_length i ≡ 0 →
        cost_before (i ∷ code) (suc (length code)) ≡ 1 + cost_before code (length code) }
    ensures repetition { (times : ℕ) (body : List Instr) →
        cost_before (Rep times (length body) ∷ body) (suc (length body))
        ≡ 1 + times * cost_before body (length body) }
{}
