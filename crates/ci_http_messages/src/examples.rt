//! Worked examples of the definitions. These functions do nothing: what they ensure is what the checker proves.

ghost use Rattle.std.specs.Prelude.{◌≡◌, ◌≤◌, ℕ, List, [], ◌∷◌, length, count_by, Some, None, Ok, Err, codes};
ghost use Rattle.ci_machine.specs.declared.reply.Code.TheVariants.{H4};
ghost use Rattle.ci_http_messages.specs.Opening.{short, too_large, opened, head_len, is_line_feed, opening_of};
ghost use Rattle.ci_http_messages.specs.BodyLength.{length_by};
ghost use Rattle.ci_http_messages.specs.Examples.{with_fields};

/// The limits of a head, in bytes and fields, and of a body in bytes: the last that is within each, and the first past it.
pub fn has_these_limits()
    ensures longest_head { (bytes : List ℕ) → length bytes ≡ 8192 → head_len bytes ≡ Some 8192 → count_by is_line_feed bytes ≤ 34 → opening_of bytes ≡ (opened bytes, []) }
    ensures long_head { (bytes : List ℕ) → length bytes ≡ 8192 → head_len bytes ≡ None → opening_of bytes ≡ (too_large, []) }
    ensures unended_head { (bytes : List ℕ) → length bytes ≡ 8191 → head_len bytes ≡ None → opening_of bytes ≡ (short, []) }
    ensures fields { opening_of (with_fields 32) ≡ (opened (with_fields 32), []) }
    ensures many_fields { opening_of (with_fields 33) ≡ (too_large, []) }
    ensures longest_body { length_by (codes "POST") (codes "65536" ∷ []) ≡ Ok 65536 }
    ensures long_body { length_by (codes "POST") (codes "65537" ∷ []) ≡ Err H4 }
{}
