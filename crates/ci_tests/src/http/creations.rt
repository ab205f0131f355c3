use ci_http_messages::payloads::creation::creation_in;
use ci_machine::records::RefKind;
use ci_machine::reply::Code;
use ci_machine::request::PipelineVariable;
use ci_machine::text::Text;
use std::alloc::Global;
use std::test::Fail;

fn kind_text(kind: RefKind) -> &'static str {
    match kind {
        RefKind::Branch => "branch",
        RefKind::Tag => "tag",
    }
}

// Variables in words: each by its key and its value, with a blank before it.
fn variables_text(alloc: Global, variables: &[PipelineVariable]) -> Result<String, Fail> {
    let mut text = String::new(alloc);
    for variable in variables {
        text.push_str(" ")?;
        text.push_str(variable.key.as_str())?;
        text.push_str("=")?;
        text.push_str(variable.value.as_str())?;
    }
    Ok(text)
}

// The pipeline of project 3 with the token `p` that a body asks to make, in words, or the code that
// refuses it.
fn creation_text(alloc: Global, body: &str) -> Result<String, Fail> {
    let token = Text::copy_of(alloc, "p")?;
    Ok(match creation_in(alloc, 3, token, body.as_bytes()) {
        Ok(new) => {
            let variables = variables_text(alloc, new.variables.as_slice())?;
            format!(in alloc;
                "{} {} {} {} {}{variables}",
                new.project,
                new.token.as_str(),
                kind_text(new.kind),
                new.git_ref.as_str(),
                new.source.as_str()
            )?
        }
        Err(Code::H7) => format!(in alloc; "H7")?,
        Err(_) => format!(in alloc; "another code")?,
    })
}

// Bodies, and the pipeline that each asks to make.
const CREATIONS: &[(&str, &str)] = &[
    ("{\"ref\":\"main\"}", "3 p branch main api"),
    (
        "{\"ref\":\"v1\",\"tag\":true,\"source\":\"push\",\"variables\":[{\"key\":\"A\",\"value\":\"1\"},{\"key\":\"B\",\"value\":\"\"}]}",
        "3 p tag v1 push A=1 B=",
    ),
    (
        "{\"ref\":\"main\",\"tag\":false,\"source\":\"web\",\"variables\":[]}",
        "3 p branch main web",
    ),
    (
        "{\"ref\":\"main\",\"source\":\"schedule\"}",
        "3 p branch main schedule",
    ),
    (
        "{\"ref\":\"main\",\"source\":\"api\"}",
        "3 p branch main api",
    ),
    (
        "{\"ref\":\"main\",\"source\":\"trigger\"}",
        "3 p branch main trigger",
    ),
    (
        "{\"ref\":\"main\",\"token\":\"q\",\"project\":4,\"x\":null}",
        "3 p branch main api",
    ),
    (
        "{\"ref\":\"main\",\"variables\":[{\"variable_type\":\"file\",\"key\":\"\",\"value\":\"v\"}]}",
        "3 p branch main api =v",
    ),
    (
        "{\"ref\":\"main\",\"variables\":[{\"key\":\"B\",\"value\":\"1\"},{\"key\":\"A\",\"value\":\"2\"},{\"key\":\"B\",\"value\":\"3\"}]}",
        "3 p branch main api B=1 A=2 B=3",
    ),
    (
        "{\"ref\":\"a\",\"tag\":true,\"source\":\"web\",\"ref\":\"b\",\"tag\":false,\"source\":\"push\"}",
        "3 p branch b push",
    ),
    (
        "{\"ref\":\"a\",\"variables\":[{\"key\":\"A\",\"value\":\"1\",\"value\":\"2\"}]}",
        "3 p branch a api A=2",
    ),
];

#[test]
fn creations(rt: HostRuntime) -> Result<(), Fail> {
    for (body, wanted) in CREATIONS {
        assert!(&rt;
            creation_text(rt.alloc(), body)?.as_str() == *wanted,
            "{body}"
        );
    }
    Ok(())
}

// Bodies that ask to make no pipeline.
const WRONG_CREATIONS: &[&str] = &[
    "",
    "[]",
    "null",
    "\"main\"",
    "{}",
    "{\"tag\":true}",
    "{\"ref\":\"\"}",
    "{\"ref\":null}",
    "{\"ref\":1}",
    "{\"ref\":[\"main\"]}",
    "{\"ref\":\"a\\nb\"}",
    "{\"ref\":\"a\\u007fb\"}",
    "{\"ref\":\"main\",\"tag\":null}",
    "{\"ref\":\"main\",\"tag\":\"true\"}",
    "{\"ref\":\"main\",\"tag\":1}",
    "{\"ref\":\"main\",\"source\":null}",
    "{\"ref\":\"main\",\"source\":\"\"}",
    "{\"ref\":\"main\",\"source\":\"Push\"}",
    "{\"ref\":\"main\",\"source\":\"pipeline\"}",
    "{\"ref\":\"main\",\"source\":[\"api\"]}",
    "{\"ref\":\"main\",\"variables\":null}",
    "{\"ref\":\"main\",\"variables\":{\"key\":\"A\",\"value\":\"1\"}}",
    "{\"ref\":\"main\",\"variables\":\"A=1\"}",
    "{\"ref\":\"main\",\"variables\":[null]}",
    "{\"ref\":\"main\",\"variables\":[\"A\"]}",
    "{\"ref\":\"main\",\"variables\":[{\"value\":\"1\"}]}",
    "{\"ref\":\"main\",\"variables\":[{\"key\":\"A\"}]}",
    "{\"ref\":\"main\",\"variables\":[{\"key\":null,\"value\":\"1\"}]}",
    "{\"ref\":\"main\",\"variables\":[{\"key\":\"A\",\"value\":1}]}",
    "{\"ref\":\"main\",\"variables\":[{\"key\":\"A\",\"value\":\"1\"},{\"key\":\"B\",\"value\":null}]}",
    "{\"ref\":\"main\",\"ref\":\"\"}",
];

#[test]
fn wrong_creations(rt: HostRuntime) -> Result<(), Fail> {
    for body in WRONG_CREATIONS {
        assert!(&rt; creation_text(rt.alloc(), body)?.as_str() == "H7", "{body}");
    }
    Ok(())
}

// A ref of so many bytes.
fn long_ref(alloc: Global, len: usize) -> Result<String, Fail> {
    let mut text = String::new(alloc);
    for _ in 0..len {
        text.push_str("r")?;
    }
    Ok(text)
}

#[test]
fn refs_are_names(rt: HostRuntime) -> Result<(), Fail> {
    let longest = long_ref(rt.alloc(), 255)?;
    let body = format!(in rt.alloc(); "{{\"ref\":\"{longest}\"}}")?;
    let wanted = format!(in rt.alloc(); "3 p branch {longest} api")?;
    assert!(&rt; creation_text(rt.alloc(), body.as_str())?.as_str() == wanted.as_str());
    let too_long = long_ref(rt.alloc(), 256)?;
    let body = format!(in rt.alloc(); "{{\"ref\":\"{too_long}\"}}")?;
    assert!(&rt; creation_text(rt.alloc(), body.as_str())?.as_str() == "H7");
    Ok(())
}
