//! Parts of the dossier of a single box, what is put in their place, and what is told of the file then.
//!
//! The function promises nothing of the table, so that the proofs of the tests do not read it.

type Case = (&'static str, &'static str, &'static str);

const CHANGED: &[Case] = &[
    ("crude dossier 1", "crude dossier 2", "line 1"),
    ("order slots", "order time", "line 2"),
    ("slots 1", "slots  1", "line 3"),
    ("slots 1", "slots 01", "line 3"),
    ("slots 1", "slots +1", "line 3"),
    ("slots 1", "slots -1", "line 3"),
    ("slots 1", "slots 4294967296", "line 3"),
    ("slots 1", "slots 4294967295", "the same"),
    ("nodes 0", "nodes 65536", "too many 4"),
    ("nodes 0", "nodes 4294967296", "line 4"),
    ("nodes 0", "nodes 00", "line 4"),
    ("answer plan", "answer found", "line 5"),
    ("answer plan", "\nanswer plan", "line 5"),
    ("margin 12", "margin +12", "line 6"),
    ("margin 12", "margin -0", "line 6"),
    ("margin 12", "margin -12", "the same"),
    ("margin 12", "margin 9223372036854775808", "line 6"),
    ("margin 12", "margin -9223372036854775808", "the same"),
    ("bound 12", "bound 12 ", "line 7"),
    ("bound 12\n", "bound 12\r\n", "line 7"),
    ("plan 1", "plan 41", "too many 8"),
    ("plan 1", "plan 2", "line 10"),
    ("op 1 c1 0 2 4", "op 2 c1 0 2 4", "line 9"),
    ("op 1 c1 0 2 4", "op 1 c! 0 2 4", "line 9"),
    ("op 1 c1 0 2 4", "op 1 c1 0 2 4294967296", "line 9"),
    ("cuts 0", "cuts 4353", "too many 10"),
    ("cuts 0", "cuts 1\ncut 1 0 1", "line 11"),
    ("cuts 0", "cuts 1\ncut 1 0 1 0 -3", "the same"),
    (
        "cuts 0",
        "cuts 1\ncut 1 0 1 0 0 0 0 0 0 0 0 0 0 0 0 0",
        "too many 11",
    ),
    ("node 0 dual 1", "node 1 dual 1", "line 11"),
    ("node 0 dual 1", "node 0 dual 01", "line 11"),
    ("node 0 dual 1", "node 0 dual", "line 11"),
    ("node 0 dual 1", "node 0 dual 1 1.1.0.0=1", "line 11"),
    ("node 0 dual 1", "node 0 dual 1 256.1.0.0.0=1", "line 11"),
    ("node 0 dual 1", "node 0 dual 1 1.65536.0.0.0=1", "line 11"),
    (
        "node 0 dual 1",
        "node 0 dual 1 1.1.0.0.0=18446744073709551616",
        "line 11",
    ),
    ("node 0 dual 1", "node 0 dual 1 cut.0.1.256=1", "line 11"),
    (
        "node 0 dual 1",
        "node 0 open 3 255.1.2.3.4=5 cut.9.1.0=18446744073709551615",
        "the same",
    ),
    ("node 0 dual 1", "node 0 dead 4294967296", "line 11"),
    ("node 0 dual 1", "node 0 split 0 1 op 1", "line 11"),
    (
        "node 0 dual 1",
        "node 0 split 0 1 ops 18446744073709551616",
        "line 11",
    ),
    (
        "node 0 dual 1",
        "node 0 split 0 1 volume 4294967296",
        "line 11",
    ),
    ("node 0 dual 1", "node 0 split 0 1 start 1 1", "line 11"),
    ("end\n", "end", "line 12"),
    ("end\n", "end\n\n", "line 13"),
    ("end\n", "end\nend\n", "line 13"),
];

pub fn changed_parts() -> &'static [Case] {
    CHANGED
}
