//! Worked examples of the definition, and its numbers. These functions do nothing: what they ensure is what the checker computes.

ghost use Rattle.std.specs.Prelude.{◌≡◌, pos, negsuc, true, [], ◌∷◌, length, replicate, Result, Ok, is_ok, codes};
ghost use Rattle.ci_expr.specs.declared.fault.ExprCode.TheVariants.{X2, X8};
ghost use Rattle.ci_yaml_lines.specs.Prelude.{boolean, number, text};
ghost use Rattle.ci_values.specs.declared.attempts.Cause.TheVariants as cause;
ghost use Rattle.ci_values.specs.declared.when.When.TheVariants as when;
ghost use Rattle.ci_config.specs.Examples.{a_map, a_list, plain_job, with_entry, with_patterns, jobs, left_out_of_files, left_out_of_jobs, left_out_of_rules, left_out_of_needs, file_with, job_with, rule_with, need_with, retry_with, meanings, all_left_out, whole_file, whole_config, configures, with_jobs, with_stages, with_variables, with_own_variables, with_rules, with_script, with_tags, with_exit_codes};
ghost use Rattle.ci_config.specs.Retries.{cause_of};
ghost use Rattle.ci_config.specs.Whens.{when_of};
ghost use Rattle.ci_config.specs.declared.keyword.CauseWord.TheVariants.{Always, One};
ghost use Rattle.ci_config.specs.Expressions.{built, refused, refused_at};
ghost use Rattle.ci_config.specs.Fault.{K1, K2, K3, K4, K5, K6, K7, K8, K9, K10, K11, K12, K13, K14, K15, K16};
ghost use Rattle.ci_config.specs.Meaning.{reading, meaning};
ghost use Rattle.ci_config.specs.Reading.{fails_at};

use crate::limits::{
    MAX_BUILDING_COST, MAX_EXIT_CODE, MAX_EXIT_CODES, MAX_JOBS, MAX_RETRIES, MAX_RULES,
    MAX_SCRIPT_ITEMS, MAX_STAGES, MAX_TAGS, MAX_VARIABLES,
};

/// The limits of the profile.
pub fn has_these_limits()
    ensures jobs { MAX_JOBS ≡ 200 }
    ensures stages { MAX_STAGES ≡ 32 }
    ensures variables { MAX_VARIABLES ≡ 100 }
    ensures rules { MAX_RULES ≡ 64 }
    ensures script_items { MAX_SCRIPT_ITEMS ≡ 256 }
    ensures tags { MAX_TAGS ≡ 32 }
    ensures exit_codes { MAX_EXIT_CODES ≡ 32 }
    ensures exit_code { MAX_EXIT_CODE ≡ 4294967295 }
    ensures retries { MAX_RETRIES ≡ 2 }
    ensures building_cost { MAX_BUILDING_COST ≡ 1000000 }
{}

/// What is taken up to each limit, and refused one past it. A hidden job isn't counted.
pub fn takes_up_to_these_limits()
    ensures jobs { configures (with_jobs 200) ≡ true }
    ensures many_jobs { reading built (with_jobs 201) ≡ fails_at (201 ∷ []) K11 }
    ensures stages { configures (with_stages 32) ≡ true }
    ensures many_stages { reading built (with_stages 33) ≡ fails_at (0 ∷ 32 ∷ []) K11 }
    ensures variables { configures (with_variables 100) ≡ true }
    ensures many_variables { reading built (with_variables 101) ≡ fails_at (0 ∷ 100 ∷ []) K11 }
    ensures own_variables { configures (with_own_variables 100) ≡ true }
    ensures many_own_variables { reading built (with_own_variables 101) ≡ fails_at (0 ∷ 1 ∷ 100 ∷ []) K11 }
    ensures rules { configures (with_rules 64) ≡ true }
    ensures many_rules { reading built (with_rules 65) ≡ fails_at (0 ∷ 1 ∷ 64 ∷ []) K11 }
    ensures script_items { configures (with_script 256) ≡ true }
    ensures many_script_items { reading built (with_script 257) ≡ fails_at (0 ∷ 0 ∷ 256 ∷ []) K11 }
    ensures tags { configures (with_tags 32) ≡ true }
    ensures many_tags { reading built (with_tags 33) ≡ fails_at (0 ∷ 1 ∷ 32 ∷ []) K11 }
    ensures exit_codes { configures (with_exit_codes (replicate 32 1)) ≡ true }
    ensures many_exit_codes { reading built (with_exit_codes (replicate 33 1)) ≡ fails_at (0 ∷ 1 ∷ 0 ∷ 32 ∷ []) K11 }
    ensures exit_code { configures (with_exit_codes (4294967295 ∷ [])) ≡ true }
    ensures great_exit_code { reading built (with_exit_codes (4294967296 ∷ [])) ≡ fails_at (0 ∷ 1 ∷ 0 ∷ 0 ∷ []) K4 }
    ensures retries { configures (with_entry (codes "retry") (number (pos 2))) ≡ true }
{}

/// Files whose top level is wrong.
pub fn refuses_these_files()
    ensures no_map { reading built (a_list (number (pos 1) ∷ [])) ≡ fails_at [] K1 }
    ensures no_job { reading built (a_map ((codes ".x", number (pos 1)) ∷ [])) ≡ fails_at [] K15 }
    ensures job_of_a_number { reading built (a_map ((codes "a", number (pos 1)) ∷ [])) ≡ fails_at (0 ∷ []) K4 }
    ensures left_out { reading built (a_map ((codes "include", text (codes "x")) ∷ [])) ≡ fails_at (0 ∷ []) (K2 (codes "include")) }
    ensures stage_twice { reading built (a_map ((codes "stages", a_list (text (codes "a") ∷ text (codes "a") ∷ [])) ∷ [])) ≡ fails_at (0 ∷ 1 ∷ []) K7 }
    ensures no_script { reading built (a_map ((codes "a", a_map ((codes "script", a_list []) ∷ [])) ∷ [])) ≡ fails_at (0 ∷ []) K5 }
    ensures many_jobs { reading built (a_map (jobs 201)) ≡ fails_at (200 ∷ []) K11 }
{}

/// Entries of a job that are wrong.
pub fn refuses_these_entries()
    ensures left_out { reading built (with_entry (codes "image") (text (codes "i"))) ≡ fails_at (0 ∷ 1 ∷ []) (K2 (codes "image")) }
    ensures unknown { reading built (with_entry (codes "colour") (text (codes "red"))) ≡ fails_at (0 ∷ 1 ∷ []) K3 }
    ensures stage { reading built (with_entry (codes "stage") (text (codes "nope"))) ≡ fails_at (0 ∷ []) K6 }
    ensures sometimes { reading built (with_entry (codes "when") (text (codes "sometimes"))) ≡ fails_at (0 ∷ 1 ∷ []) K8 }
    ensures never { reading built (with_entry (codes "when") (text (codes "never"))) ≡ fails_at (0 ∷ 1 ∷ []) K14 }
    ensures delayed { reading built (with_entry (codes "when") (text (codes "delayed"))) ≡ fails_at (0 ∷ 1 ∷ []) (K2 (codes "delayed")) }
    ensures three_retries { reading built (with_entry (codes "retry") (number (pos 3))) ≡ fails_at (0 ∷ 1 ∷ []) K9 }
    ensures less_than_none { reading built (with_entry (codes "retry") (number (negsuc 0))) ≡ fails_at (0 ∷ 1 ∷ []) K9 }
    ensures short { reading built (with_entry (codes "timeout") (text (codes "59s"))) ≡ fails_at (0 ∷ 1 ∷ []) K10 }
    ensures number_of_seconds { reading built (with_entry (codes "timeout") (number (pos 60))) ≡ fails_at (0 ∷ 1 ∷ []) K4 }
    ensures tag { reading built (with_entry (codes "tags") (a_list (text (97 ∷ 9 ∷ 98 ∷ []) ∷ []))) ≡ fails_at (0 ∷ 1 ∷ 0 ∷ []) K16 }
    ensures variable { reading built (with_entry (codes "variables") (a_map ((codes "A", boolean true) ∷ []))) ≡ fails_at (0 ∷ 1 ∷ 0 ∷ []) K4 }
    ensures variable_name { reading built (with_entry (codes "variables") (a_map ((codes "1A", text (codes "x")) ∷ []))) ≡ fails_at (0 ∷ 1 ∷ 0 ∷ []) K12 }
    ensures need { reading built (with_entry (codes "needs") (a_list (a_map ((codes "optional", boolean true) ∷ []) ∷ []))) ≡ fails_at (0 ∷ 1 ∷ 0 ∷ []) K4 }
    ensures exit_codes { reading built (with_entry (codes "allow_failure") (a_map [])) ≡ fails_at (0 ∷ 1 ∷ []) K4 }
    ensures max { reading built (with_entry (codes "retry") (a_map ((codes "when", text (codes "always")) ∷ []))) ≡ fails_at (0 ∷ 1 ∷ []) K9 }
    ensures rule { reading built (with_entry (codes "rules") (a_list (a_map ((codes "if", text (codes "$A = 1")) ∷ []) ∷ []))) ≡ fails_at (0 ∷ 1 ∷ 0 ∷ 0 ∷ []) (K13 X2) }
{}

/// Where the fault of a job is that comes when all entries were read, and that of a pattern that is refused: what each is told of stands
/// behind a good entry. A list of causes has the place of the cause.
pub fn finds_these_places()
    ensures stage_of_second_job { reading built (a_map ((codes "a", plain_job) ∷ (codes "b", a_map ((codes "script", text (codes "x")) ∷ (codes "stage", text (codes "nope")) ∷ [])) ∷ [])) ≡ fails_at (1 ∷ []) K6 }
    ensures script_before_stage { reading built (a_map ((codes ".h", text []) ∷ (codes "a", a_map ((codes "stage", text (codes "nope")) ∷ [])) ∷ (codes "stages", a_list []) ∷ [])) ≡ fails_at (1 ∷ []) K5 }
    ensures cause { reading built (with_entry (codes "retry") (a_map ((codes "max", number (pos 1)) ∷ (codes "when", a_list (text (codes "always") ∷ text (codes "never") ∷ [])) ∷ []))) ≡ fails_at (0 ∷ 1 ∷ 1 ∷ 1 ∷ []) K9 }
    ensures need_of_an_empty_name { reading built (with_entry (codes "needs") (a_list (text (codes "b") ∷ a_map ((codes "optional", boolean true) ∷ (codes "job", text []) ∷ []) ∷ []))) ≡ fails_at (0 ∷ 1 ∷ 1 ∷ 1 ∷ []) K16 }
    ensures first_pattern { reading refused with_patterns ≡ fails_at (0 ∷ 1 ∷ 1 ∷ 1 ∷ []) (K13 X8) }
    ensures that_pattern { reading (refused_at (0 ∷ 1 ∷ 2 ∷ 0 ∷ [])) with_patterns ≡ fails_at (0 ∷ 1 ∷ 2 ∷ 0 ∷ []) (K13 X8) }
    ensures no_pattern { is_ok (reading (refused_at (0 ∷ 1 ∷ 0 ∷ 0 ∷ [])) with_patterns) ≡ true }
{}

/// The keys that are left out by name.
pub fn leaves_out_these_keys()
    ensures files { meanings file_with left_out_of_files ≡ all_left_out left_out_of_files }
    ensures jobs { meanings job_with left_out_of_jobs ≡ all_left_out left_out_of_jobs }
    ensures rules { meanings rule_with left_out_of_rules ≡ all_left_out left_out_of_rules }
    ensures needs { meanings need_with left_out_of_needs ≡ all_left_out left_out_of_needs }
    ensures retries { reading built (retry_with (codes "exit_codes")) ≡ fails_at (0 ∷ 1 ∷ 0 ∷ []) (K2 (codes "exit_codes")) }
{}

/// The words of `when`, and those of a retry's `when`.
pub fn reads_these_words()
    ensures on_success { when_of (text (codes "on_success")) ≡ Ok when.OnSuccess }
    ensures on_failure { when_of (text (codes "on_failure")) ≡ Ok when.OnFailure }
    ensures always { when_of (text (codes "always")) ≡ Ok when.Always }
    ensures manual { when_of (text (codes "manual")) ≡ Ok when.Manual }
    ensures each_cause { cause_of (text (codes "always")) ≡ Ok Always }
    ensures unknown_failure { cause_of (text (codes "unknown_failure")) ≡ Ok (One cause.UnknownFailure) }
    ensures script_failure { cause_of (text (codes "script_failure")) ≡ Ok (One cause.ScriptFailure) }
    ensures api_failure { cause_of (text (codes "api_failure")) ≡ Ok (One cause.ApiFailure) }
    ensures stuck_or_timeout_failure { cause_of (text (codes "stuck_or_timeout_failure")) ≡ Ok (One cause.StuckOrTimeoutFailure) }
    ensures runner_system_failure { cause_of (text (codes "runner_system_failure")) ≡ Ok (One cause.RunnerSystemFailure) }
    ensures job_execution_timeout { cause_of (text (codes "job_execution_timeout")) ≡ Ok (One cause.JobExecutionTimeout) }
{}

/// A file with each keyword.
pub fn reads_each_keyword()
    ensures { meaning built whole_file ≡ Ok whole_config }
{}
