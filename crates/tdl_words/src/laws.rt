//! Laws of the words. Each function does nothing: its contract is the law.
ghost use Rattle.std.specs.Prelude.{◌≡◌, ◌+◌, ◌<◌, ◌≤◌, List, [], ◌∷◌, ◌++◌, ℕ, Some, None, IsTrue, length, codes};
ghost use Rattle.tdl_base.specs.declared.limits.TheConstants.{SOURCES};
ghost use Rattle.tdl_words.specs.declared.words.Call.{Call};
ghost use Rattle.tdl_words.specs.declared.words.Call.TheVariants as call;
ghost use Rattle.tdl_words.specs.Words.{Words, AreSources, is_file, call_in, files_in, source_count};

/// `compile` and `run` take from 1 to 64 sources and their options, those of `run` in both orders,
/// and no more; `exec` takes one file.
pub fn words_of_calls()
    ensures compile { (files : Words) (out : List ℕ) → AreSources files → IsTrue (is_file out)
        → call_in (codes "compile" ∷ files ++ codes "--out" ∷ out ∷ [])
        ≡ Some (call.Compile (length files) (length files + 2)) }
    ensures run { (files : Words) (out scenario : List ℕ) → AreSources files
        → IsTrue (is_file out) → IsTrue (is_file scenario)
        → call_in (codes "run" ∷ files ++ codes "--out" ∷ out ∷ codes "--scen" ∷ scenario ∷ [])
        ≡ Some (call.Run (length files) (length files + 2) (length files + 4)) }
    ensures run_scenario_first { (files : Words) (out scenario : List ℕ) → AreSources files
        → IsTrue (is_file out) → IsTrue (is_file scenario)
        → call_in (codes "run" ∷ files ++ codes "--scen" ∷ scenario ∷ codes "--out" ∷ out ∷ [])
        ≡ Some (call.Run (length files) (length files + 4) (length files + 2)) }
    ensures exec { (file scenario : List ℕ) → IsTrue (is_file file) → IsTrue (is_file scenario)
        → call_in (codes "exec" ∷ file ∷ codes "--scen" ∷ scenario ∷ []) ≡ Some (call.Exec 3) }
    ensures too_many { (words : Words) → SOURCES < files_in words
        → call_in (codes "compile" ∷ words) ≡ None × call_in (codes "run" ∷ words) ≡ None }
{}

/// A call names no more sources than a command takes.
pub fn few_sources()
    ensures { (words : Words) (call : Call) (n : ℕ) → call_in words ≡ Some call
        → source_count call ≡ Some n → n ≤ SOURCES }
{}
