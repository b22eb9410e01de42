//! Outcomes that no bundle in a file comes to: numbers at the ends of their types, and empty names and labels. All else
//! that is tested is a row of run_rows.

use acl_eval::write_outcome;
use std::alloc::Global;
use std::test::Fail;
use waf_model::{Capacity, Decision, Ender, Items, Memory, Outcome, Text};

/// The texts as a list of the model.
fn texts_of(alloc: Global, texts: &[&str]) -> Result<Items<Text>, Memory> {
    let mut all = Items::new(alloc);
    for text in texts {
        all.push(Text::of(alloc, text.as_bytes())?)?;
    }
    Ok(all)
}

#[test]
fn outcomes_that_no_file_comes_to_are_written(rt: HostRuntime) -> Result<(), Fail> {
    let alloc = rt.alloc();
    let greatest = Outcome {
        decision: Decision::Challenge,
        ender: Ender::Rule {
            priority: u32::MAX,
            name: Text::of(alloc, b"z")?,
        },
        labels: texts_of(alloc, &["a:b", "a:c"])?,
    };
    let capacity = Capacity {
        known: u64::MAX,
        unknown: u32::MAX,
    };
    let text = write_outcome(alloc, &greatest, &capacity)?;
    let wanted =
        "decision CHALLENGE\nrule 4294967295 z\nlabel a:b\nlabel a:c\ncapacity 18446744073709551615 unknown 4294967295\n";
    assert_eq!(rt; text.bytes(), wanted.as_bytes());
    let empty = Outcome {
        decision: Decision::Block { code: 403 },
        ender: Ender::Inner {
            priority: 0,
            name: Text::new(alloc),
            inner_priority: 0,
            inner_name: Text::new(alloc),
        },
        labels: texts_of(alloc, &["", "z", "z:", "zz"])?,
    };
    let capacity = Capacity {
        known: 0,
        unknown: 1,
    };
    let text = write_outcome(alloc, &empty, &capacity)?;
    let wanted =
        "decision BLOCK 403\nrule 0  / 0 \nlabel \nlabel z\nlabel z:\nlabel zz\ncapacity 0 unknown 1\n";
    assert_eq!(rt; text.bytes(), wanted.as_bytes());
    Ok(())
}
