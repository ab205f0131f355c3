//! Laws of what one line says. These functions do nothing: what they ensure is what the checker proves.

ghost use Rattle.std.specs.Prelude.{◌≡◌, ℕ, List, [], Some, true, false, drop};
ghost use Rattle.std.specs.List.{list_all};
ghost use Rattle.ci_yaml_lines.specs.Prelude.{Members, quoted, is_blank, head_is, trim_end, comment_len, before_comment, only_comment, Line, listed, is_skipped, spaces};
ghost use Rattle.ci_yaml_lines.specs.Prelude.{parse_line, IsQuoted, IsCut, IsList, IsClear};
ghost use Rattle.ci_yaml_lines.specs.Scalar.{Quoted};

/// A quoted scalar is read from a text exactly where it is written in front.
pub fn reads_quoted()
    ensures is_written { (bytes : List ℕ) (q : Quoted) → quoted bytes ≡ Some q → IsQuoted bytes q }
    ensures is_read { (bytes : List ℕ) (q : Quoted) → IsQuoted bytes q → quoted bytes ≡ Some q }
{}

/// A text is cut where its first comment begins, and in one way.
pub fn cuts_comments()
    ensures is_cut { (before : ℕ) (bytes : List ℕ) → IsCut before bytes (before_comment before bytes) (drop (comment_len before bytes) bytes) }
    ensures one_cut { (before : ℕ) (bytes front behind : List ℕ) → IsCut before bytes front behind → front ≡ before_comment before bytes }
    ensures only_blanks { (before : ℕ) (bytes : List ℕ) → only_comment before bytes ≡ list_all is_blank (before_comment before bytes) }
{}

/// A list is read from a bracket on without a code, and closed, exactly where it is written there.
pub fn reads_lists()
    ensures is_written { (bytes rest : List ℕ) → head_is 91 bytes ≡ true → (listed bytes).codes ≡ [] → (listed bytes).rest ≡ Some rest → IsList bytes (listed bytes).members rest }
    ensures is_read { (bytes rest : List ℕ) (values : Members) → IsList bytes values rest → listed bytes ≡ record { members = values; rest = Some rest; codes = [] } }
{}

/// In a content line without codes, without its indent and the blanks at its end, no `-` or `:` stands directly before a tab but in
/// quoted scalars and in a comment. (A space comes before the text.)
pub fn clears_tabs()
    ensures { (line : Line) → is_skipped line ≡ false → (parse_line line).codes ≡ [] → IsClear 32 (trim_end (drop (spaces line) line)) }
{}
