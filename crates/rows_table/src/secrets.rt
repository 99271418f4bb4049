//! A token is a secret, and debug texts go into logs.

use crate::table_faults::kept_of;
use pl_table::{Head, Principal, Role};
use std::alloc::Global;
use transcripts::transcript::Stop;

const HEAD: Head = Head {
    principal: 3,
    token: [0xab; 16],
    role: Role::Secondary,
    database: 0,
    epoch: 1,
};

const PRINCIPAL: Principal = Principal {
    id: 7,
    token: [0xab; 16],
};

const ONE_OPERATOR: &str = r#"[[principal]]
id = 7
token = "abababababababababababababababab"
[[row]]
verdict = "allow"
role = "operator"
"#;

// The debug texts of a head, a principal and a table's text, each on its line.
fn debug_texts(alloc: Global) -> Result<String, Stop> {
    let text = kept_of(alloc, ONE_OPERATOR.as_bytes())?;
    Ok(format!(in alloc; "{HEAD:?}\n{PRINCIPAL:?}\n{text:?}")?)
}

// Whether bytes of the token are in the text, in decimal or hexadecimal.
fn has_token(text: &str) -> bool {
    text.contains("171") || text.contains("abab") || text.contains("ABAB")
}

#[test]
fn debug_texts_have_no_token(rt: HostRuntime) {
    let texts = match debug_texts(rt.alloc()) {
        Ok(texts) => texts,
        Err(_) => debug_texts(rt.alloc()).expect(&rt, "no texts"),
    };
    let known = "Head { principal: 3, role: Secondary, database: 0, epoch: 1, .. }\n\
        Principal { id: 7, .. }\nTableText {";
    let texts = texts.as_str();
    assert!(rt; texts.starts_with(known) && !has_token(texts), "{texts}");
}
