//! An input of `audit`.

use crate::discard;
use audit_check::{AuditInput, read_audit_input};
use std::process::Abort;

// A declaration of each kind, after a table.
const INPUT: &[u8] = b"mrpc-audit 1
table
end
tenant u 86400000
policy acl access
default allow
end
policy qu quota u cap 4294967295
audit
op 1 attach 0 acl acl
";

fn has_items(rt: &impl Abort, input: &AuditInput<'_>) {
    assert!(rt; input.loads == 1024);
    assert!(rt; input.line == 9);
    assert!(rt; input.text == b"op 1 attach 0 acl acl\n".as_slice());
    assert!(rt; input.declared.tenant(b"u") == Some(0));
    assert!(rt; input.declared.policy(b"qu") == Some(1));
    assert!(rt; input.declared.policy(b"u").is_none());
}

#[test]
fn an_input_is_read(rt: HostRuntime) {
    let input = read_audit_input(rt.alloc(), INPUT)
        .ok()
        .expect(&rt, "an input");
    has_items(&rt, &input);
    discard(input);
}
