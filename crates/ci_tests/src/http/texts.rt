use ci_http_messages::payloads::texts::{file_in, token_in, value_in};
use ci_machine::reply::Code;
use ci_machine::text::Text;
use std::test::Fail;

// Was this text read, or, where none is wanted, the body refused by H7?
fn is_as_wanted(read: &Result<Text, Code>, wanted: Option<&str>) -> bool {
    match (read, wanted) {
        (Ok(text), Some(wanted)) => text.as_str() == wanted,
        (Err(Code::H7), None) => true,
        _ => false,
    }
}

// Bodies, and the token in each.
const TOKENS: &[(&[u8], Option<&str>)] = &[
    (b"{\"token\":\"r1-ab\"}", Some("r1-ab")),
    (b" {\"x\":[{}], \"token\" : \"r1-ab\"}\n", Some("r1-ab")),
    (b"{\"token\":\"\\u00fc\"}", Some("\u{fc}")),
    (b"{\"token\":\"\"}", Some("")),
    (b"{}", Some("")),
    (b"{\"Token\":\"a\"}", Some("")),
    (b"{\"token\":\"a\",\"token\":\"b\"}", Some("b")),
    (b"{\"token\":1,\"token\":\"b\"}", Some("b")),
    (b"{\"token\":\"a\",\"token\":1}", None),
    (b"{\"token\":null}", None),
    (b"{\"token\":1}", None),
    (b"{\"token\":true}", None),
    (b"{\"token\":[\"a\"]}", None),
    (b"{\"token\":{\"token\":\"a\"}}", None),
    (b"", None),
    (b"null", None),
    (b"\"token\"", None),
    (b"[\"token\"]", None),
    (b"{\"token\":\"a\"", None),
    (b"{\"token\":\"a\"}x", None),
    (b"{\"token\":\"\xff\"}", None),
];

#[test]
fn tokens(rt: HostRuntime) -> Result<(), Fail> {
    for (body, wanted) in TOKENS {
        assert!(&rt; is_as_wanted(&token_in(rt.alloc(), body), *wanted));
    }
    Ok(())
}

// Bodies, and the value of a variable in each.
const VALUES: &[(&[u8], Option<&str>)] = &[
    (b"{\"value\":\"a b\"}", Some("a b")),
    (b"{\"value\":\"\"}", Some("")),
    (b"{\"key\":\"K\",\"value\":\"v\"}", Some("v")),
    (b"{\"value\":\"a\",\"value\":\"b\"}", Some("b")),
    (b"{}", None),
    (b"{\"token\":\"a\"}", None),
    (b"{\"value\":null}", None),
    (b"{\"value\":1}", None),
    (b"{\"value\":false}", None),
    (b"{\"value\":[]}", None),
    (b"[]", None),
    (b"a b", None),
    (b"", None),
    (b"{\"value\":\"\xc3\"}", None),
];

#[test]
fn values(rt: HostRuntime) -> Result<(), Fail> {
    for (body, wanted) in VALUES {
        assert!(&rt; is_as_wanted(&value_in(rt.alloc(), body), *wanted));
    }
    Ok(())
}

// Bodies, and the CI file that each is.
const FILES: &[(&[u8], Option<&str>)] = &[
    (
        b"build:\n  script: make\n",
        Some("build:\n  script: make\n"),
    ),
    (b"", Some("")),
    (b"{\"value\":", Some("{\"value\":")),
    (b"\xc3\xbc", Some("\u{fc}")),
    (b"a\xc3", None),
    (b"\xff", None),
    (b"\xed\xa0\x80", None),
];

#[test]
fn files(rt: HostRuntime) -> Result<(), Fail> {
    for (body, wanted) in FILES {
        assert!(&rt; is_as_wanted(&file_in(rt.alloc(), body), *wanted));
    }
    Ok(())
}
