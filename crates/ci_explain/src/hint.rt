//! What is said of each fault of a keyword, in the user's words.

use ci_config::ConfigCode;
use ci_expr::ExprCode;

/// The number of a code, a word and a sentence. The word is the keyword; behind K2 it is the name that is left out, and behind K13 the code
/// of the expression. At no word the sentence is that of all others.
type Row = (u8, &'static str, &'static str);

/// The sentences. Of the rows of a code the first that has the word, or none, counts.
const ROWS: [Row; 94] = [
    (1, "", "the file is a map: a key for each job"),
    (
        2,
        "image",
        "there are no images here: the runner's machine is chosen by `tags`",
    ),
    (
        2,
        "services",
        "there are no services here: a script may start them on the runner's machine",
    ),
    (
        2,
        "cache",
        "nothing is cached: keep it in a folder of the runner's machine",
    ),
    (
        2,
        "artifacts",
        "nothing is passed on between jobs: a script brings files to a place of your own",
    ),
    (
        2,
        "dependencies",
        "nothing is passed on between jobs, so there is nothing to choose: leave it out",
    ),
    (
        2,
        "before_script",
        "write its lines at the beginning of each job's `script`",
    ),
    (
        2,
        "after_script",
        "let the `script` set a trap first: trap '..' EXIT",
    ),
    (
        2,
        "include",
        "nothing is included: write it out in this file",
    ),
    (
        2,
        "extends",
        "nothing is inherited: write it out in the job",
    ),
    (
        2,
        "default",
        "there are no defaults: write them out in each job",
    ),
    (
        2,
        "inherit",
        "nothing is inherited but variables: leave it out",
    ),
    (
        2,
        "workflow",
        "who asks for a pipeline decides whether there is one: leave it out",
    ),
    (2, "only", "write `rules`: a rule for each entry"),
    (
        2,
        "except",
        "write `rules`: a rule with `when: never` for each entry, and a last one that takes the rest",
    ),
    (2, "parallel", "write a job for each copy"),
    (
        2,
        "trigger",
        "a script may ask for the other pipeline, by the API",
    ),
    (
        2,
        "environment",
        "there are no environments here: `resource_group` keeps two deployments apart",
    ),
    (
        2,
        "release",
        "there are no releases here: a script makes them",
    ),
    (
        2,
        "pages",
        "there are no pages here: name the job otherwise, and let its script bring the files to their place",
    ),
    (
        2,
        "id_tokens",
        "there are no tokens here: set a variable of the project",
    ),
    (
        2,
        "secrets",
        "there are no vaults here: set a variable of the project",
    ),
    (
        2,
        "dast_configuration",
        "nothing stands in its place: leave it out",
    ),
    (2, "coverage", "nothing stands in its place: leave it out"),
    (
        2,
        "hooks",
        "nothing stands in its place: put the lines into `script`",
    ),
    (
        2,
        "start_in",
        "no job is delayed: write `when: manual`, or a `sleep` in the script",
    ),
    (
        2,
        "delayed",
        "no job is delayed: write `when: manual`, or a `sleep` in the script",
    ),
    (
        2,
        "changes",
        "no rule looks at files: let the script look, and end early",
    ),
    (
        2,
        "exists",
        "no rule looks at files: let the script look, and end early",
    ),
    (2, "needs", "the job has its needs, for all rules"),
    (2, "interruptible", "the job has it, for all rules"),
    (2, "project", "a job needs jobs of its own pipeline alone"),
    (2, "ref", "a job needs jobs of its own pipeline alone"),
    (2, "pipeline", "a job needs jobs of its own pipeline alone"),
    (
        2,
        "exit_codes",
        "a retry isn't chosen by exit codes: `when` takes causes",
    ),
    (2, "", "it is left out"),
    (3, "", "this is no keyword here"),
    (4, "jobs", "a job is a map, with a `script`"),
    (4, "stages", "`stages` is a list of names"),
    (
        4,
        "variables",
        "`variables` is a map; the value of each is a text or a whole number, and any other stands in quotes",
    ),
    (
        4,
        "script",
        "`script` is a text or a list of texts: a line that holds `: `, or is a number or `true`, stands in quotes or in a block (`|`)",
    ),
    (4, "stage", "`stage` is a text: the name of a stage"),
    (
        4,
        "needs",
        "`needs` is a list of names, or of maps with `job` and `optional`",
    ),
    (4, "job", "`job` is a text: the name of a job"),
    (4, "optional", "`optional` is `true` or `false`"),
    (
        4,
        "rules",
        "`rules` is a list of maps: each has a dash and its keys",
    ),
    (4, "if", "`if` is a text: an expression"),
    (
        4,
        "when",
        "`when` is a text; that of a retry may be a list of texts",
    ),
    (
        4,
        "allow_failure",
        "`allow_failure` is `true` or `false`; that of a job may be a map with `exit_codes`",
    ),
    (
        4,
        "exit_codes",
        "`exit_codes` is a number or a list of numbers, from 0 to 4294967295",
    ),
    (4, "retry", "`retry` is a number, or a map with `max`"),
    (4, "max", "`max` is a number"),
    (4, "tags", "`tags` is a list of texts"),
    (4, "timeout", "`timeout` is a text, as 30 minutes or 1h 30m"),
    (4, "resource_group", "`resource_group` is a text"),
    (4, "interruptible", "`interruptible` is `true` or `false`"),
    (4, "", "the value is of the wrong kind"),
    (5, "script", "the script is empty: a job has a line to run"),
    (5, "", "a job has a `script`"),
    (6, "stage", "this stage isn't among `stages`"),
    (
        6,
        "",
        "a job without `stage` is of the stage `test`, which isn't among `stages`",
    ),
    (7, "", "this stage is listed already"),
    (
        8,
        "",
        "`when` is `on_success`, `on_failure`, `always` or `manual`, and in rules `never` too",
    ),
    (
        9,
        "when",
        "the causes are `always`, `unknown_failure`, `script_failure`, `api_failure`, `stuck_or_timeout_failure`, `runner_system_failure` and `job_execution_timeout`",
    ),
    (9, "max", "`max` is 0 to 2"),
    (9, "", "`retry` is 0 to 2, or a map with such a `max`"),
    (
        10,
        "",
        "a time limit is from 1 minute to 30 days, in s, m, h and d or their words, as 1h 30m",
    ),
    (11, "jobs", "a file has 200 jobs at most"),
    (11, "stages", "a file lists 32 stages at most"),
    (11, "variables", "there are 100 variables at most"),
    (11, "rules", "a job has 64 rules at most"),
    (
        11,
        "script",
        "a script has 256 lines at most: several may stand in a block (`|`)",
    ),
    (11, "tags", "a job has 32 tags at most"),
    (11, "exit_codes", "there are 32 exit codes at most"),
    (11, "", "one more than the limit"),
    (
        12,
        "",
        "the name of a variable is a letter or `_`, and then letters, digits and `_`",
    ),
    (13, "X1", "an expression has 1,024 bytes at most"),
    (
        13,
        "X2",
        "there is a word or a sign that no expression has: a variable is `$NAME`, a text stands in quotes, and of a pattern's flags there is `i` alone",
    ),
    (13, "X3", "a text in quotes or a pattern doesn't end"),
    (
        13,
        "X4",
        "the left side of a comparison is a variable; `==` and `!=` want a text, `null` or a variable at the right, `=~` and `!~` a pattern",
    ),
    (13, "X5", "the parentheses don't balance"),
    (13, "X6", "a pattern stands behind `=~` or `!~` alone"),
    (13, "X7", "there are 32 open parentheses at most"),
    (
        13,
        "X8",
        "this is no pattern here, or it is too big, or those of the file are together",
    ),
    (
        14,
        "",
        "`never` stands in rules alone: hide the job, by a `.` before its name",
    ),
    (
        15,
        "",
        "there is no job: each is hidden by a `.` before its name, or there is none",
    ),
    (
        16,
        "stages",
        "the name of a stage has 1 to 255 bytes and no control characters",
    ),
    (
        16,
        "stage",
        "the name of a stage has 1 to 255 bytes and no control characters",
    ),
    (
        16,
        "tags",
        "a tag has 1 to 255 bytes and no control characters",
    ),
    (
        16,
        "resource_group",
        "the name of a group has 1 to 255 bytes and no control characters",
    ),
    (
        16,
        "needs",
        "the name of a job has 1 to 255 bytes and no control characters",
    ),
    (
        16,
        "job",
        "the name of a job has 1 to 255 bytes and no control characters",
    ),
    (
        16,
        "jobs",
        "the name of a job has 1 to 255 bytes and no control characters",
    ),
    (
        16,
        "",
        "a name has 1 to 255 bytes and no control characters",
    ),
];

/// The name of a code of an expression.
fn expression_code(code: ExprCode) -> &'static str {
    match code {
        ExprCode::X1 => "X1",
        ExprCode::X2 => "X2",
        ExprCode::X3 => "X3",
        ExprCode::X4 => "X4",
        ExprCode::X5 => "X5",
        ExprCode::X6 => "X6",
        ExprCode::X7 => "X7",
        ExprCode::X8 => "X8",
    }
}

/// The sentence of a code at a word.
fn sentence_of(number: u8, word: &str) -> &'static str {
    for row in &ROWS {
        let (of, at, sentence) = *row;
        if of == number && (at == word || at.is_empty()) {
            return sentence;
        }
    }
    ""
}

/// What is said of a code at a keyword.
pub fn hint_of(code: ConfigCode, keyword: &str) -> &'static str {
    match code {
        ConfigCode::K2(left_out) => sentence_of(2, left_out),
        ConfigCode::K13(code) => sentence_of(13, expression_code(code)),
        other => sentence_of(other.number(), keyword),
    }
}
