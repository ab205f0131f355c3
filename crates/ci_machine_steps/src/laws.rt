//! What holds of tokens, of a job's variables and of the text of faults.

ghost use Rattle.std.specs.Prelude.{List, [], ◌∷◌, ◌++◌, ℕ, ◌<◌, ◌^◌, ◌≡◌, map};
ghost use Rattle.ci_machine.specs.declared.request.Seed.{Seed};
ghost use Rattle.ci_machine_steps.specs.Plans.{token_of};
ghost use Rattle.std.specs.Ordering.{nat_cmp};
ghost use Rattle.std.specs.Cmp.Lexicographic.{slice_cmp};
ghost use Rattle.std.specs.List.Sorted.{IsStrictlySortedBy};
ghost use Rattle.ci_machine.specs.Prelude.{Variables, value_in, meaning_of, detail_text};
ghost use Rattle.ci_config.specs.Prelude.{Code as YamlCode};
ghost use Rattle.ci_yaml.specs.Prelude.{fault_text};
ghost use Rattle.ci_graph_layout.specs.Prelude.{Config, Job as ConfigJob, Fault, said as keyword_text, Given, layered, own_names};
ghost use Rattle.ci_machine_steps.specs.Files.{keyword_fault, line_fault};
ghost use Rattle.ci_machine_steps.specs.Pipelines.{merged};

use ci_yaml::YamlFault;

/// Two tokens of a kind are the same only if their numbers are, whatever the seeds.
pub fn tokens_hold_their_number()
    ensures { (letter : List ℕ) (n m : ℕ) (s t : Seed) → n < 2 ^ 64 → m < 2 ^ 64 → token_of letter n s ≡ token_of letter m t → n ≡ m }
{}

/// The variables of a job are in the order of their names, and each has the value of the first layer that has it.
pub fn variables_are_of_their_first_layers()
    ensures ascend { (vs : Variables) → IsStrictlySortedBy (slice_cmp nat_cmp) (map (λ v. v.0) (merged vs)) }
    ensures values { (vs : Variables) (name : List ℕ) → meaning_of (merged vs) name ≡ meaning_of vs name }
    ensures layers { (given : Given) (c : Config) (job : ConfigJob) (own : Variables) (name : List ℕ) → meaning_of (layered given c job own) name ≡ value_in (given.pipeline ∷ given.project ∷ own ∷ c.variables ∷ (own_names job ++ given.predefined) ∷ []) name }
{}

/// A detail prints a fault of a file as `ciserver check` does.
pub fn details_print_faults()
    ensures keywords { (fault : Fault) → detail_text (keyword_fault fault) ≡ keyword_text fault }
    ensures lines { (code : YamlCode) (line : ℕ) → detail_text (line_fault code line) ≡ fault_text (YamlFault.Fault code line) }
{}
