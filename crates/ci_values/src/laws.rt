//! Laws of the definitions that the contracts cite.

ghost use Rattle.std.specs.Prelude.{◌≡◌, ℕ, List, Some, decimal};
ghost use Rattle.ci_values.specs.Numbers.{id_in, IsId};

/// A text is the number of a record exactly if it is that number in decimal: each number has one
/// text.
pub fn a_number_has_one_text()
    ensures named { (text : List ℕ) (n : ℕ) → id_in text ≡ Some n → IsId n × (text ≡ decimal n) }
    ensures names { (n : ℕ) → IsId n → id_in (decimal n) ≡ Some n }
{}
