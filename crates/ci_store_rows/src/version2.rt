//! What version 2 of the format has more than version 1, as the statement that makes it. It is made behind all that version 1 has
//! (`version1`): a store of version 2 lists those texts, and then this one.

/// The table of the process modes of resource groups.
pub const CREATE_MODE: &str =
    "CREATE TABLE mode (project INTEGER NOT NULL REFERENCES project (id), grp TEXT NOT NULL, mode INTEGER NOT NULL, PRIMARY KEY (project, grp)) STRICT";
