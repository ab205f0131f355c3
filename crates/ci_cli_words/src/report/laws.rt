//! Laws of the definitions. These functions do nothing: what they ensure is what the checker proves.

ghost use Rattle.std.specs.Prelude.{◌≡◌, ℕ, ◌-◌, ◌^◌, ◌<◌, List, ◌++◌, length, replicate, IsAscii, decimal};
ghost use Rattle.ci_cli_words.specs.ReportText.{right, left};

/// A column is its text and spaces up to its width; what is wider stands whole. At its right stand numbers, at its left texts.
pub fn fills_columns()
    ensures right { (width n : ℕ) → 0 < width → right width n ≡ replicate (width - length (decimal n)) 32 ++ decimal n }
    ensures left { (width : ℕ) (text : List ℕ) → 0 < width → IsAscii text → length text < 2 ^ 64 → left width text ≡ text ++ replicate (width - length text) 32 }
{}
