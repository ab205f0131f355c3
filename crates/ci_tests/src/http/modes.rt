ghost use Rattle.ci_http_messages.specs.Prelude.{OpensWhole};

use ci_http_messages::call::{HeadRoom, read_request};
use ci_http_messages::link::Link;
use ci_http_messages::payloads::mode::mode_in;
use ci_http_messages::route::{Demand, request_of};
use ci_http_messages::routing::paths::Paths;
use ci_http_messages::text::reply_bytes;
use ci_machine::records::GroupOrder;
use ci_machine::reply::{Code, Reply};
use ci_machine::request::{GroupQuery, NewMode, Request};
use std::alloc::Global;
use std::marker::Brand;
use std::sync::ledger::{Blank, Ledger};
use std::test::Fail;

fn order_text(order: Option<GroupOrder>) -> &'static str {
    match order {
        None => "none",
        Some(GroupOrder::OldestFirst) => "oldest",
        Some(GroupOrder::NewestReadyFirst) => "newest",
    }
}

// Bodies, and the mode in each: by its order in a word, or the code that refuses the body.
const MODES: &[(&[u8], &str)] = &[
    (b"{\"process_mode\":\"unordered\"}", "none"),
    (b"{\"process_mode\":\"oldest_first\"}", "oldest"),
    (b"{\"process_mode\":\"newest_ready_first\"}", "newest"),
    (
        b" {\"key\":\"x\", \"process_mode\" : \"\\u006fldest_first\"}\n",
        "oldest",
    ),
    (
        b"{\"process_mode\":1,\"process_mode\":\"unordered\"}",
        "none",
    ),
    (
        b"{\"process_mode\":\"oldest_first\",\"process_mode\":\"newest_first\"}",
        "H7",
    ),
    (b"{\"process_mode\":\"newest_first\"}", "H7"),
    (b"{\"process_mode\":\"Unordered\"}", "H7"),
    (b"{\"process_mode\":\"oldest_first \"}", "H7"),
    (b"{\"process_mode\":\"oldest\"}", "H7"),
    (b"{\"process_mode\":\"\"}", "H7"),
    (b"{\"process_mode\":null}", "H7"),
    (b"{\"process_mode\":1}", "H7"),
    (b"{\"process_mode\":false}", "H7"),
    (b"{\"process_mode\":[\"unordered\"]}", "H7"),
    (b"{\"process_mode\":{\"process_mode\":\"unordered\"}}", "H7"),
    (b"{\"mode\":\"unordered\"}", "H7"),
    (b"{}", "H7"),
    (b"[\"unordered\"]", "H7"),
    (b"\"unordered\"", "H7"),
    (b"unordered", "H7"),
    (b"{\"process_mode\":\"unordered\"", "H7"),
    (b"{\"process_mode\":\"\xff\"}", "H7"),
    (b"", "H7"),
];

#[test]
fn modes(rt: HostRuntime) -> Result<(), Fail> {
    for (body, wanted) in MODES {
        let found = match mode_in(rt.alloc(), body) {
            Ok(order) => order_text(order),
            Err(Code::H7) => "H7",
            Err(_) => "another code",
        };
        assert!(&rt; found == *wanted, "{wanted}");
    }
    Ok(())
}

// What a request asks for, or the reply that refuses it.
fn read_over<L: Ledger>(
    alloc: Global,
    paths: &Paths,
    bytes: &[u8],
    blank: Blank,
) -> Result<Demand, Reply>
    requires { OpensWhole blank.name blank.parts L.name L.parts }
{
    let mut reader = Link::<&[u8], L>::new(bytes, blank);
    let mut room = HeadRoom::new();
    match read_request(alloc, &mut reader, &mut room) {
        Ok(call) => request_of(alloc, paths, &call),
        Err(_) => Err(Reply::refusal(Code::M16)),
    }
}

fn read(alloc: Global, paths: &Paths, text: &str) -> Result<Demand, Reply> {
    read_over::<Brand>(alloc, paths, text.as_bytes(), Blank::new(1))
}

fn set_text(alloc: Global, new: &NewMode) -> Result<String, Fail> {
    Ok(format!(in alloc;
        "set {} {} {} {}",
        new.project,
        new.token.as_str(),
        new.group.as_str(),
        order_text(new.order)
    )?)
}

fn show_text(alloc: Global, query: &GroupQuery) -> Result<String, Fail> {
    Ok(format!(in alloc;
        "show {} {} {}",
        query.project,
        query.token.as_str(),
        query.group.as_str()
    )?)
}

// What is asked of a resource group, in words, or the code that refuses it.
fn words(alloc: Global, read: &Result<Demand, Reply>) -> Result<String, Fail> {
    match read {
        Ok(Demand::Request(Request::SetMode(new))) => set_text(alloc, new),
        Ok(Demand::Request(Request::ShowMode(query))) => show_text(alloc, query),
        Ok(_) => Ok(String::from_str(alloc, "another request")?),
        Err(reply) => Ok(String::from_str(alloc, code_text(reply.code))?),
    }
}

fn code_text(code: Option<Code>) -> &'static str {
    match code {
        Some(Code::H5) => "H5",
        Some(Code::H6) => "H6",
        Some(Code::H7) => "H7",
        _ => "another code",
    }
}

// What a request asks of a resource group, in words, or the code that refuses it.
fn asked(alloc: Global, paths: &Paths, text: &str) -> Result<String, Fail> {
    words(alloc, &read(alloc, paths, text))
}

// A request that a resource group of project 3 is to have the mode of the body.
fn set(alloc: Global, key: &str, body: &str) -> Result<String, Fail> {
    let len = body.len();
    Ok(format!(in alloc;
        "PUT /api/v4/projects/3/resource_groups/{key} HTTP/1.1\r\nPRIVATE-TOKEN: p\r\nContent-Length: {len}\r\n\r\n{body}"
    )?)
}

// A request for a resource group of project 3.
fn show(alloc: Global, key: &str) -> Result<String, Fail> {
    Ok(format!(in alloc;
        "GET /api/v4/projects/3/resource_groups/{key} HTTP/1.1\r\nPRIVATE-TOKEN: p\r\n\r\n"
    )?)
}

// Keys and bodies, and what a request with them asks for.
const SET: &[(&str, &str, &str)] = &[
    (
        "prod",
        "{\"process_mode\":\"unordered\"}",
        "set 3 p prod none",
    ),
    (
        "prod",
        "{\"process_mode\":\"oldest_first\"}",
        "set 3 p prod oldest",
    ),
    (
        "prod",
        "{\"process_mode\":\"newest_ready_first\"}",
        "set 3 p prod newest",
    ),
    (
        "a%2Fb",
        "{\"process_mode\":\"unordered\"}",
        "set 3 p a%2Fb none",
    ),
    (
        "\u{fc}?x=1",
        "{\"process_mode\":\"unordered\"}",
        "set 3 p \u{fc} none",
    ),
    ("", "{\"process_mode\":\"unordered\"}", "H5"),
    ("a/b", "{\"process_mode\":\"unordered\"}", "H5"),
    ("prod", "{\"process_mode\":\"newest_first\"}", "H7"),
    ("prod", "{}", "H7"),
    ("prod", "oldest_first", "H7"),
    ("prod", "", "H7"),
];

#[test]
fn modes_are_set(rt: HostRuntime) -> Result<(), Fail> {
    let alloc = rt.alloc();
    let paths = Paths::new(alloc)?;
    for (key, body, wanted) in SET {
        let text = set(alloc, key, body)?;
        assert!(&rt;
            asked(alloc, &paths, text.as_str())?.as_str() == *wanted,
            "{text}"
        );
    }
    Ok(())
}

// Keys, and what a request for each asks for.
const SHOWN: &[(&str, &str)] = &[
    ("prod", "show 3 p prod"),
    ("a%20b", "show 3 p a%20b"),
    ("prod?process_mode=oldest_first", "show 3 p prod"),
    ("", "H5"),
    ("prod/", "H5"),
];

#[test]
fn modes_are_shown(rt: HostRuntime) -> Result<(), Fail> {
    let alloc = rt.alloc();
    let paths = Paths::new(alloc)?;
    for (key, wanted) in SHOWN {
        let text = show(alloc, key)?;
        assert!(&rt;
            asked(alloc, &paths, text.as_str())?.as_str() == *wanted,
            "{text}"
        );
    }
    Ok(())
}

// A text so many times.
fn repeated(alloc: Global, text: &str, times: usize) -> Result<String, Fail> {
    let mut all = String::new(alloc);
    for _ in 0..times {
        all.push_str(text)?;
    }
    Ok(all)
}

// Parts of keys, how often each stands, and what becomes of the key. The limit counts bytes.
const LONG_KEYS: &[(&str, usize, &str)] = &[
    ("k", 255, "taken"),
    ("k", 256, "H7"),
    ("\u{fc}", 127, "taken"),
    ("\u{fc}", 128, "H7"),
];

fn key_told(read: &Result<Demand, Reply>, key: &str) -> &'static str {
    match read {
        Ok(Demand::Request(Request::SetMode(new))) if new.group.as_str() == key => "taken",
        Ok(Demand::Request(Request::ShowMode(query))) if query.group.as_str() == key => "taken",
        Ok(_) => "another request",
        Err(reply) => code_text(reply.code),
    }
}

fn set_told(alloc: Global, paths: &Paths, key: &str) -> Result<&'static str, Fail> {
    let text = set(alloc, key, "{\"process_mode\":\"oldest_first\"}")?;
    Ok(key_told(&read(alloc, paths, text.as_str()), key))
}

fn show_told(alloc: Global, paths: &Paths, key: &str) -> Result<&'static str, Fail> {
    let text = show(alloc, key)?;
    Ok(key_told(&read(alloc, paths, text.as_str()), key))
}

#[test]
fn keys_are_names(rt: HostRuntime) -> Result<(), Fail> {
    let paths = Paths::new(rt.alloc())?;
    for (part, times, wanted) in LONG_KEYS {
        let key = repeated(rt.alloc(), part, *times)?;
        assert!(&rt; set_told(rt.alloc(), &paths, key.as_str())? == *wanted);
        assert!(&rt; show_told(rt.alloc(), &paths, key.as_str())? == *wanted);
    }
    Ok(())
}

// Requests without a token or with two, and what each asks for.
const TOKENS: &[(&str, &str)] = &[
    (
        "GET /api/v4/projects/3/resource_groups/prod HTTP/1.1\r\n\r\n",
        "show 3  prod",
    ),
    (
        "PUT /api/v4/projects/3/resource_groups/prod HTTP/1.1\r\nContent-Length: 28\r\n\r\n{\"process_mode\":\"unordered\"}",
        "set 3  prod none",
    ),
    (
        "GET /api/v4/projects/3/resource_groups/prod HTTP/1.1\r\nPRIVATE-TOKEN: p\r\nPRIVATE-TOKEN: p\r\n\r\n",
        "H7",
    ),
    (
        "DELETE /api/v4/projects/3/resource_groups/prod HTTP/1.1\r\n\r\n",
        "H6",
    ),
];

#[test]
fn tokens_of_groups(rt: HostRuntime) -> Result<(), Fail> {
    let alloc = rt.alloc();
    let paths = Paths::new(alloc)?;
    for (text, wanted) in TOKENS {
        assert!(&rt; asked(alloc, &paths, text)?.as_str() == *wanted, "{text}");
    }
    Ok(())
}

fn tells_both_methods(reply: &Reply) -> bool {
    let wanted =
        b"HTTP/1.1 405 Method Not Allowed\r\nAllow: GET, PUT\r\nContent-Type: application/json\r\nContent-Length: 13\r\nConnection: close\r\n\r\n".as_slice();
    let bytes = reply_bytes(reply);
    bytes.head.as_slice() == wanted && bytes.body == b"{\"code\":\"H6\"}".as_slice()
}

#[test]
fn another_method_of_a_group_is_told_both(rt: HostRuntime) -> Result<(), Fail> {
    let alloc = rt.alloc();
    let paths = Paths::new(alloc)?;
    let text = "POST /api/v4/projects/3/resource_groups/prod HTTP/1.1\r\nContent-Length: 0\r\n\r\n";
    let told = match &read(alloc, &paths, text) {
        Ok(_) => false,
        Err(reply) => tells_both_methods(reply),
    };
    assert!(&rt; told);
    Ok(())
}
