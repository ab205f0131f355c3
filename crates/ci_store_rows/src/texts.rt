//! The texts of all statements but those that make the tables. A connection keeps the plans of 64 texts; those that the machine's events run are fewer.

pub const INSERT_META: &str = "INSERT INTO meta (key, num) VALUES (?1, ?2)";

pub const UPDATE_META: &str = "UPDATE meta SET key = ?1, num = ?2 WHERE key = ?1";

pub const SELECT_META: &str = "SELECT key, num FROM meta WHERE key = ?1";

pub const INSERT_PROJECT: &str =
    "INSERT INTO project (id, name, token, file) VALUES (?1, ?2, ?3, ?4)";

pub const UPDATE_PROJECT: &str =
    "UPDATE project SET id = ?1, name = ?2, token = ?3, file = ?4 WHERE id = ?1";

pub const DELETE_PROJECT: &str = "DELETE FROM project WHERE id = ?1";

pub const SELECT_PROJECT: &str = "SELECT id, name, token, file FROM project WHERE id = ?1";

pub const SELECT_PROJECTS_ABOVE: &str = "SELECT id, name, token, file FROM project WHERE id > ?1";

pub const SELECT_PROJECT_WITH: &str = "SELECT id, name, token, file FROM project WHERE token = ?1";

pub const INSERT_VARIABLE: &str = "INSERT INTO variable (project, key, value) VALUES (?1, ?2, ?3)";

pub const UPDATE_VARIABLE: &str =
    "UPDATE variable SET project = ?1, key = ?2, value = ?3 WHERE project = ?1 AND key = ?2";

pub const DELETE_VARIABLE: &str = "DELETE FROM variable WHERE project = ?1 AND key = ?2";

pub const SELECT_VARIABLE: &str =
    "SELECT project, key, value FROM variable WHERE project = ?1 AND key = ?2";

pub const SELECT_VARIABLES: &str =
    "SELECT project, key, value FROM variable WHERE project = ?1 ORDER BY key";

pub const INSERT_RUNNER: &str =
    "INSERT INTO runner (id, name, token, project, tags, untagged, paused) VALUES (?1, ?2, ?3, ?4, ?5, ?6, ?7)";

pub const UPDATE_RUNNER: &str =
    "UPDATE runner SET id = ?1, name = ?2, token = ?3, project = ?4, tags = ?5, untagged = ?6, paused = ?7 WHERE id = ?1";

pub const DELETE_RUNNER: &str = "DELETE FROM runner WHERE id = ?1";

pub const SELECT_RUNNER: &str =
    "SELECT id, name, token, project, tags, untagged, paused FROM runner WHERE id = ?1";

pub const SELECT_RUNNERS_ABOVE: &str =
    "SELECT id, name, token, project, tags, untagged, paused FROM runner WHERE id > ?1";

pub const SELECT_RUNNER_WITH: &str =
    "SELECT id, name, token, project, tags, untagged, paused FROM runner WHERE token = ?1";

pub const SELECT_RUNNERS: &str =
    "SELECT id, name, token, project, tags, untagged, paused FROM runner ORDER BY id";

pub const INSERT_PIPELINE: &str =
    "INSERT INTO pipeline (id, project, ref, kind, source, created) VALUES (?1, ?2, ?3, ?4, ?5, ?6)";

pub const UPDATE_PIPELINE: &str =
    "UPDATE pipeline SET id = ?1, project = ?2, ref = ?3, kind = ?4, source = ?5, created = ?6 WHERE id = ?1";

pub const DELETE_PIPELINE: &str = "DELETE FROM pipeline WHERE id = ?1";

pub const SELECT_PIPELINE: &str =
    "SELECT id, project, ref, kind, source, created FROM pipeline WHERE id = ?1";

pub const SELECT_PIPELINES_ABOVE: &str =
    "SELECT id, project, ref, kind, source, created FROM pipeline WHERE id > ?1";

pub const SELECT_NEWER_PIPELINES: &str =
    "SELECT id, project, ref, kind, source, created FROM pipeline WHERE project = ?1 AND ref = ?2 AND kind = ?3 AND id > ?4 ORDER BY id LIMIT ?5";

pub const SELECT_PIPELINES_BEFORE: &str =
    "SELECT id, project, ref, kind, source, created FROM pipeline WHERE +created < ?1 ORDER BY id LIMIT ?2";

pub const SELECT_SOME_PIPELINES_BEFORE: &str =
    "SELECT id, project, ref, kind, source, created FROM pipeline WHERE created < ?1 ORDER BY created LIMIT ?2";

pub const SELECT_NEWEST_PIPELINES: &str =
    "SELECT id, project, ref, kind, source, created FROM pipeline WHERE +project = ?1 ORDER BY id DESC LIMIT ?2";

pub const INSERT_JOB: &str =
    "INSERT INTO job (id, pipeline, pos, name, stage, spec, played, cancelled, aside) VALUES (?1, ?2, ?3, ?4, ?5, ?6, ?7, ?8, ?9)";

pub const UPDATE_JOB: &str =
    "UPDATE job SET id = ?1, pipeline = ?2, pos = ?3, name = ?4, stage = ?5, spec = ?6, played = ?7, cancelled = ?8, aside = ?9 WHERE id = ?1";

pub const DELETE_JOB: &str = "DELETE FROM job WHERE id = ?1";

pub const SELECT_JOB: &str =
    "SELECT id, pipeline, pos, name, stage, spec, played, cancelled, aside FROM job WHERE id = ?1";

pub const SELECT_JOBS_ABOVE: &str =
    "SELECT id, pipeline, pos, name, stage, spec, played, cancelled, aside FROM job WHERE id > ?1";

pub const SELECT_DEMAND: &str = "SELECT id, pipeline, spec FROM job WHERE id = ?1";

pub const SELECT_DEMANDS_ABOVE: &str = "SELECT id, pipeline, spec FROM job WHERE id > ?1";

pub const SELECT_JOBS_OF: &str =
    "SELECT id, pipeline, pos, name, stage, spec, played, cancelled, aside FROM job WHERE pipeline = ?1 ORDER BY id";

pub const INSERT_JOB_VARIABLE: &str = "INSERT INTO jobvar (job, key, value) VALUES (?1, ?2, ?3)";

pub const UPDATE_JOB_VARIABLE: &str =
    "UPDATE jobvar SET job = ?1, key = ?2, value = ?3 WHERE job = ?1 AND key = ?2";

pub const DELETE_JOB_VARIABLE: &str = "DELETE FROM jobvar WHERE job = ?1 AND key = ?2";

pub const DELETE_JOB_VARIABLES: &str = "DELETE FROM jobvar WHERE job = ?1";

pub const SELECT_JOB_VARIABLES: &str =
    "SELECT job, key, value FROM jobvar WHERE job = ?1 ORDER BY key";

pub const INSERT_ATTEMPT: &str =
    "INSERT INTO attempt (id, job, runner, token, granted, seen, state, cause, exit) VALUES (?1, ?2, ?3, ?4, ?5, ?6, ?7, ?8, ?9)";

pub const UPDATE_ATTEMPT: &str =
    "UPDATE attempt SET id = ?1, job = ?2, runner = ?3, token = ?4, granted = ?5, seen = ?6, state = ?7, cause = ?8, exit = ?9 WHERE id = ?1";

pub const DELETE_ATTEMPT: &str = "DELETE FROM attempt WHERE id = ?1";

pub const SELECT_ATTEMPT: &str =
    "SELECT id, job, runner, token, granted, seen, state, cause, exit FROM attempt WHERE id = ?1";

pub const SELECT_ATTEMPTS_ABOVE: &str =
    "SELECT id, job, runner, token, granted, seen, state, cause, exit FROM attempt WHERE id > ?1";

pub const SELECT_ATTEMPTS_OF: &str =
    "SELECT id, job, runner, token, granted, seen, state, cause, exit FROM attempt WHERE job = ?1 ORDER BY id";

pub const SELECT_ATTEMPTS_IN: &str =
    "SELECT id, job, runner, token, granted, seen, state, cause, exit FROM attempt WHERE state = ?1 ORDER BY id";

pub const SELECT_ATTEMPTS_WITHIN: &str =
    "SELECT id, job, runner, token, granted, seen, state, cause, exit FROM attempt WHERE job >= ?1 AND job <= ?2 ORDER BY id";

pub const SELECT_ATTEMPTS_BY: &str =
    "SELECT id, job, runner, token, granted, seen, state, cause, exit FROM attempt WHERE runner = ?1 ORDER BY id DESC LIMIT ?2";

pub const INSERT_BLOCK: &str = "INSERT INTO piece (attempt, seq, bytes) VALUES (?1, ?2, ?3)";

pub const UPDATE_BLOCK: &str =
    "UPDATE piece SET attempt = ?1, seq = ?2, bytes = ?3 WHERE attempt = ?1 AND seq = ?2";

pub const DELETE_BLOCKS: &str = "DELETE FROM piece WHERE attempt = ?1";

pub const SELECT_BLOCKS: &str =
    "SELECT attempt, seq, bytes FROM piece WHERE attempt = ?1 ORDER BY seq";

pub const SELECT_LAST_BLOCKS: &str =
    "SELECT attempt, seq, bytes FROM piece WHERE attempt = ?1 ORDER BY seq DESC LIMIT ?2";

pub const INSERT_NEED: &str = "INSERT INTO need (job, pred) VALUES (?1, ?2)";

/// The same of sixteen rows.
pub const INSERT_NEEDS: &str =
    "INSERT INTO need (job, pred) VALUES (?1, ?2), (?3, ?4), (?5, ?6), (?7, ?8), (?9, ?10), (?11, ?12), (?13, ?14), (?15, ?16), (?17, ?18), (?19, ?20), (?21, ?22), (?23, ?24), (?25, ?26), (?27, ?28), (?29, ?30), (?31, ?32)";

pub const UPDATE_NEED: &str = "UPDATE need SET job = ?1, pred = ?2 WHERE job = ?1 AND pred = ?2";

pub const DELETE_NEED: &str = "DELETE FROM need WHERE job = ?1 AND pred = ?2";

pub const DELETE_NEEDS: &str = "DELETE FROM need WHERE job = ?1";

pub const SELECT_NEEDS_OF: &str = "SELECT job, pred FROM need WHERE job = ?1";

pub const SELECT_NEEDS_ON: &str = "SELECT job, pred FROM need WHERE pred = ?1";

pub const SELECT_NEEDS_WITHIN: &str =
    "SELECT job, pred FROM need WHERE job >= ?1 AND job <= ?2 ORDER BY job, pred";

pub const INSERT_ROW: &str =
    "INSERT INTO board (job, status, open, failed, barred) VALUES (?1, ?2, ?3, ?4, ?5)";

pub const UPDATE_ROW: &str =
    "UPDATE board SET job = ?1, status = ?2, open = ?3, failed = ?4, barred = ?5 WHERE job = ?1";

pub const DELETE_ROW: &str = "DELETE FROM board WHERE job = ?1";

pub const SELECT_ROW: &str = "SELECT job, status, open, failed, barred FROM board WHERE job = ?1";

pub const SELECT_ROWS_WITHIN: &str =
    "SELECT job, status, open, failed, barred FROM board WHERE job >= ?1 AND job <= ?2 ORDER BY job";

pub const SELECT_ROWS_WITH: &str =
    "SELECT job, status, open, failed, barred FROM board WHERE status = ?1 ORDER BY job";

pub const INSERT_HOLDER: &str = "INSERT INTO holder (project, grp, attempt) VALUES (?1, ?2, ?3)";

pub const UPDATE_HOLDER: &str =
    "UPDATE holder SET project = ?1, grp = ?2, attempt = ?3 WHERE project = ?1 AND grp = ?2";

pub const DELETE_HOLDER: &str = "DELETE FROM holder WHERE project = ?1 AND grp = ?2";

pub const SELECT_HOLDER: &str =
    "SELECT project, grp, attempt FROM holder WHERE project = ?1 AND grp = ?2";

pub const SELECT_HOLDERS_IN: &str =
    "SELECT project, grp, attempt FROM holder WHERE project = ?1 ORDER BY grp";

pub const SELECT_HOLDERS_OF: &str = "SELECT project, grp, attempt FROM holder WHERE attempt = ?1";

pub const INSERT_MODE: &str = "INSERT INTO mode (project, grp, mode) VALUES (?1, ?2, ?3)";

pub const UPDATE_MODE: &str =
    "UPDATE mode SET project = ?1, grp = ?2, mode = ?3 WHERE project = ?1 AND grp = ?2";

pub const DELETE_MODE: &str = "DELETE FROM mode WHERE project = ?1 AND grp = ?2";

pub const SELECT_MODE: &str = "SELECT project, grp, mode FROM mode WHERE project = ?1 AND grp = ?2";

pub const SELECT_MODES: &str = "SELECT project, grp, mode FROM mode ORDER BY project, grp";
