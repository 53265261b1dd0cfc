//! That the list and the explanations speak of the same rules.

use crate::{explanation, rule_list};
use std::test::Fail;

#[test]
fn each_line_of_the_list_begins_an_explanation(rt: HostRuntime) -> Result<(), Fail> {
    let alloc = rt.alloc();
    let mut list = rule_list().lines();
    for rule in 1..57 {
        let line = list.next().unwrap_or("no line");
        let text = explanation(rule).unwrap_or("no text");
        let first = format!(in alloc; "type rule {line}\n")?;
        assert!(rt; text.starts_with(first.as_str()));
    }
    assert!(rt; list.next().is_none());
    assert!(rt; explanation(0).is_none());
    assert!(rt; explanation(57).is_none());
    Ok(())
}
