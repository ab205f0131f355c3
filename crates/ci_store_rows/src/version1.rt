//! The tables and indexes of version 1 of the format, as the statements that make them. A store of this version lists these texts, so a later
//! version that reads one has them from here.

/// The statements in turn.
pub const SCHEMA: [&str; 21] = [
    "CREATE TABLE meta (key TEXT NOT NULL PRIMARY KEY, num INTEGER NOT NULL) STRICT",
    "CREATE TABLE project (id INTEGER PRIMARY KEY, name TEXT NOT NULL, token TEXT NOT NULL UNIQUE, file TEXT) STRICT",
    "CREATE TABLE runner (id INTEGER PRIMARY KEY, name TEXT NOT NULL, token TEXT NOT NULL UNIQUE, project INTEGER REFERENCES project (id), tags TEXT NOT NULL, untagged INTEGER NOT NULL, paused INTEGER NOT NULL) STRICT",
    "CREATE TABLE pipeline (id INTEGER PRIMARY KEY, project INTEGER NOT NULL REFERENCES project (id), ref TEXT NOT NULL, kind INTEGER NOT NULL, source INTEGER NOT NULL, created INTEGER NOT NULL) STRICT",
    "CREATE TABLE job (id INTEGER PRIMARY KEY, pipeline INTEGER NOT NULL REFERENCES pipeline (id) ON DELETE CASCADE, pos INTEGER NOT NULL, name TEXT NOT NULL, stage TEXT NOT NULL, spec TEXT NOT NULL, played INTEGER NOT NULL, cancelled INTEGER NOT NULL, aside INTEGER NOT NULL) STRICT",
    "CREATE INDEX job_pipeline ON job (pipeline)",
    "CREATE TABLE jobvar (job INTEGER NOT NULL REFERENCES job (id) ON DELETE CASCADE, key TEXT NOT NULL, value TEXT NOT NULL, PRIMARY KEY (job, key)) STRICT",
    "CREATE TABLE attempt (id INTEGER PRIMARY KEY, job INTEGER NOT NULL REFERENCES job (id) ON DELETE CASCADE, runner INTEGER NOT NULL REFERENCES runner (id), token TEXT NOT NULL, granted INTEGER NOT NULL, seen INTEGER NOT NULL, state INTEGER NOT NULL, cause INTEGER, exit INTEGER) STRICT",
    "CREATE INDEX attempt_job ON attempt (job)",
    "CREATE INDEX attempt_state ON attempt (state)",
    "CREATE TABLE piece (attempt INTEGER NOT NULL REFERENCES attempt (id) ON DELETE CASCADE, seq INTEGER NOT NULL, bytes BLOB NOT NULL, PRIMARY KEY (attempt, seq)) STRICT",
    "CREATE TABLE need (job INTEGER NOT NULL REFERENCES job (id) ON DELETE CASCADE, pred INTEGER NOT NULL REFERENCES job (id) ON DELETE CASCADE, PRIMARY KEY (job, pred)) STRICT",
    "CREATE INDEX need_pred ON need (pred)",
    "CREATE TABLE board (job INTEGER PRIMARY KEY REFERENCES job (id) ON DELETE CASCADE, status INTEGER NOT NULL, open INTEGER NOT NULL, failed INTEGER NOT NULL, barred INTEGER NOT NULL) STRICT",
    "CREATE INDEX board_status ON board (status, job)",
    "CREATE TABLE variable (project INTEGER NOT NULL REFERENCES project (id), key TEXT NOT NULL, value TEXT NOT NULL, PRIMARY KEY (project, key)) STRICT",
    "CREATE TABLE holder (project INTEGER NOT NULL REFERENCES project (id), grp TEXT NOT NULL, attempt INTEGER NOT NULL REFERENCES attempt (id) ON DELETE CASCADE, PRIMARY KEY (project, grp)) STRICT",
    "CREATE INDEX holder_attempt ON holder (attempt)",
    "CREATE INDEX pipeline_ref ON pipeline (project, ref, kind, id)",
    "CREATE INDEX attempt_runner ON attempt (runner, id)",
    "CREATE INDEX pipeline_created ON pipeline (created)",
];
