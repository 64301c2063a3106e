//! Laws of the program's words.
ghost use Rattle.std.specs.Prelude.{◌≡◌, ◌≤◌, ℕ, List, [], ◌∷◌, Bool, Option, IfSome, true, false};
ghost use Rattle.std.specs.Prelude.{codes};
ghost use Rattle.shell_words.specs.NamedWords.{folder_words, is_path, network_words};
ghost use Rattle.shell_words.specs.Program.{are_refused};

/// `clap` never refuses words that name `--nodes` and `--notary` at most once each, in either
/// order, each followed by a decimal number in range as a word of its own.
pub fn network_words_are_taken()
    ensures { (flip : Bool) (nodes notary : Option ℕ) → IfSome nodes (λ n. (1 ≤ n) × (n ≤ 16))
        → IfSome notary (λ k. k ≤ 15) → are_refused (network_words flip nodes notary) ≡ false }
{}

/// It never refuses words that name `--dir` alone, followed by a path that is not empty and does
/// not begin with `-`.
pub fn folder_words_are_taken()
    ensures { (path : List ℕ) → is_path path ≡ true → are_refused (folder_words path) ≡ false }
{}

/// It refuses `--help` alone.
pub fn help_alone_is_refused()
    ensures { are_refused (codes "--help" ∷ []) ≡ true }
{}
