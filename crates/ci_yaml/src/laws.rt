//! Laws of the definitions. These functions do nothing: what they ensure is what the checker proves.

ghost use Rattle.std.specs.Prelude.{◌≡◌, ℕ, ◌≤◌, ◌⊎◌, true, false, List, [], ◌∷◌, ◌++◌, length, Some, Ok, Err};
ghost use Rattle.std.specs.Str.Lines.{lines};
ghost use Rattle.ci_yaml_lines.specs.declared.code.Code.{Code};
ghost use Rattle.ci_yaml_lines.specs.declared.code.Code.TheVariants.{Y1};
ghost use Rattle.ci_yaml_lines.specs.Prelude.{Value, Line};
ghost use Rattle.ci_yaml_lines.specs.Entry.{Entry};
ghost use Rattle.ci_yaml.specs.Node.{IsDocument};
ghost use Rattle.ci_yaml.specs.Document.{Ending, Parses, HasTree, IsGood, IsLeast, IsFault};
ghost use Rattle.ci_yaml.specs.Codes.{holds_Y10};
ghost use Rattle.ci_yaml.specs.Examples.{key_at, list_at, nested};
ghost use Rattle.ci_yaml.specs.Shape.{KeysDiffer, depth};
ghost use Rattle.ci_yaml.specs.TextSpans.{HaveSpans};
ghost use Rattle.ci_yaml_lines.specs.declared.tree.Span.{Span};
ghost use Rattle.ci_yaml.specs.Reading.{finished};
ghost use Rattle.ci_yaml.specs.declared.limits.TheConstants.{MAX_DEPTH};
ghost use Rattle.ci_yaml.specs.ReadLines.{Reader, read_lines, beginning};

/// A text has a tree or a fault.
pub fn has_tree_or_fault()
    ensures { (bytes : List ℕ) → ((v : Value) × HasTree bytes v) ⊎ ((at : ℕ) × (code : Code) × IsFault bytes at code) }
{}

/// No text has both.
pub fn has_not_both()
    ensures { (bytes : List ℕ) (v : Value) (at : ℕ) (code : Code) → HasTree bytes v → IsFault bytes at code → ⊥ }
{}

/// A text has one fault at most: one line, and one code.
pub fn has_one_fault()
    ensures { (bytes : List ℕ) (i j : ℕ) (c d : Code) → IsFault bytes i c → IsFault bytes j d → (i ≡ j) × (c ≡ d) }
{}

/// In each map of a text's tree the keys differ, and at most `MAX_DEPTH` maps and lists lie within one another.
pub fn fits()
    ensures { (bytes : List ℕ) (v : Value) → HasTree bytes v → KeysDiffer v × (depth v ≤ MAX_DEPTH) }
{}

/// A text of 65,536 bytes has the tree of its lines, and one of 65,537 is too long, whatever it holds. A tenth map or list may lie
/// within nine others, and no eleventh within ten.
pub fn keeps_these_limits()
    ensures longest { (bytes : List ℕ) (es : List Entry) (end : Ending) (v : Value) → length bytes ≡ 65536 → Parses (lines bytes) es end → IsDocument v es → HasTree bytes v }
    ensures too_long { (bytes : List ℕ) → length bytes ≡ 65537 → IsFault bytes 1 Y1 }
    ensures deepest { holds_Y10 (nested 9) (key_at 9) ≡ false }
    ensures too_deep { holds_Y10 (nested 10) (key_at 10) ≡ true }
    ensures deepest_list { holds_Y10 (nested 8) (list_at 8) ≡ false }
    ensures too_deep_list { holds_Y10 (nested 9) (list_at 9) ≡ true }
{}

/// Lines say one list of entries at most, and end in one way.
pub fn parse_one_way()
    ensures { (ls : List Line) (es fs : List Entry) (d e : Ending) → Parses ls es d → Parses ls fs e → (es ≡ fs) × (d ≡ e) }
{}

/// A text has one tree at most.
pub fn has_one_tree()
    ensures { (bytes : List ℕ) (v w : Value) → HasTree bytes v → HasTree bytes w → v ≡ w }
{}

/// A text's lines have one list of spans at most.
pub fn has_one_list_of_spans()
    ensures { (ls : List Line) (a b : List Span) → HaveSpans 0 ls a → HaveSpans 0 ls b → a ≡ b }
{}

/// Each beginning of a good beginning is good.
pub fn begins_well()
    ensures { (a b : List Line) → IsGood (a ++ b) → IsGood a }
{}

/// Lines that are read to their end, one after the other, have the tree that is read.
pub fn reads_trees()
    ensures { (ls : List Line) (r : Reader) (v : Value) → read_lines beginning ls ≡ Ok r → finished r.state ≡ Some v
        → (es : List Entry) × (end : Ending) × Parses ls es end × IsDocument v es }
{}

/// Lines that have a tree are read to their end, and that tree is read.
pub fn reads_all_trees()
    ensures { (ls : List Line) (es : List Entry) (end : Ending) (v : Value) → Parses ls es end → IsDocument v es
        → (r : Reader) × (read_lines beginning ls ≡ Ok r) × (finished r.state ≡ Some v) }
{}

/// Reading stops at the first line that makes no good beginning, with the least code that holds of it.
pub fn stops_first()
    ensures { (ls : List Line) (code : Code) → read_lines beginning ls ≡ Err code
        → (before : List Line) × (l : Line) × (after : List Line) × (ls ≡ before ++ l ∷ after) × IsGood before × (IsGood (before ++ l ∷ []) → ⊥) × IsLeast before l code }
{}
