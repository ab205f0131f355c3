//! What holds of every trace in blocks, and worked rows.

ghost use Rattle.std.specs.Prelude.{◌≡◌, ◌≤◌, ◌-◌, List, [], ◌∷◌, length, map, take, replicate, All, Option, None, IfSome};
ghost use Rattle.std.specs.List.{flat_map, range_with_len, last_or};
ghost use Rattle.ci_store.specs.Prelude.{Trace};
ghost use Rattle.ci_store_rows.specs.Blocks.{blocks_of, block_sizes};

/// Of the blocks of a trace each but the last has 16,384 bytes, and the last 1 to 16,384; they are numbered from 0 on, and joined they are the
/// trace. An empty trace has none.
pub fn blocks_are_full_but_the_last()
    ensures joined { (t : Trace) → flat_map (λ b. b.bytes) (blocks_of t) ≡ t.bytes }
    ensures full { (t : Trace) → All (λ b. length b.bytes ≡ 16384) (take (length (blocks_of t) - 1) (blocks_of t)) }
    ensures last { (t : Trace) → IfSome (last_or None (blocks_of t)) (λ b. (1 ≤ length b.bytes) × (length b.bytes ≤ 16384)) }
    ensures numbered { (t : Trace) → map (λ b. b.seq) (blocks_of t) ≡ range_with_len 0 (length (blocks_of t)) }
    ensures of_one { (t : Trace) → All (λ b. b.attempt ≡ t.attempt) (blocks_of t) }
    ensures empty { (t : Trace) → t.bytes ≡ [] → blocks_of t ≡ [] }
{}

/// How many bytes each block has, worked out by hand: of traces with so many bytes.
pub fn block_examples()
    ensures empty { (t : Trace) → length t.bytes ≡ 0 → block_sizes t ≡ [] }
    ensures few { (t : Trace) → length t.bytes ≡ 5 → block_sizes t ≡ 5 ∷ [] }
    ensures one { (t : Trace) → length t.bytes ≡ 16384 → block_sizes t ≡ 16384 ∷ [] }
    ensures one_more { (t : Trace) → length t.bytes ≡ 16385 → block_sizes t ≡ 16384 ∷ 1 ∷ [] }
    ensures two { (t : Trace) → length t.bytes ≡ 16390 → block_sizes t ≡ 16384 ∷ 6 ∷ [] }
    ensures five { (t : Trace) → length t.bytes ≡ 65537 → block_sizes t ≡ 16384 ∷ 16384 ∷ 16384 ∷ 16384 ∷ 1 ∷ [] }
    ensures longest { (t : Trace) → length t.bytes ≡ 4194304 → block_sizes t ≡ replicate 256 16384 }
{}
