//! What no run prints yet: a review that is undecided, and one with every member of a request and of answers. All else
//! that is tested is a row of run_rows.

use answer_book::read_answers;
use parting_build::{Parting, Review};
use request_parts::read_request;
use std::test::Fail;
use waf_model::Decision;
use wafreview_run::write_review;

const REQUEST: &str =
    "{\"args\":\"x=\\b\\t\\n\\f\\r\\u001f\",\"body\":\"YWI=\",\"clientIp\":\"2001:db8:0:0:0:0:0:1\",\"headers\":[{\"name\":\"a\",\"value\":\"v\"},{\"name\":\"b\",\"valueBase64\":\"/w==\"}],\"httpMethod\":\"POST\",\"uri\":\"/\\\"\\\\\"}";

const ANSWERS: &str =
    "{\"Groups\":[{\"Key\":\"g\",\"Labels\":[\"awswaf:managed:x\"],\"Verdict\":\"BLOCK\"}],\"Statements\":[{\"Key\":\"s\",\"Match\":true}],\"Tokens\":[{\"ImmunityTime\":300,\"Kind\":\"CAPTCHA\",\"Valid\":false}]}";

#[test]
fn what_no_run_prints_yet_is_written(rt: HostRuntime) -> Result<(), Fail> {
    let alloc = rt.alloc();
    let undecided = write_review(alloc, &Review::Undecided { made: 7 })?;
    assert_eq!(rt; undecided.bytes(), b"review UNDECIDED 7\n".as_slice());
    let (Ok(request), Ok(answers)) = (
        read_request(alloc, REQUEST.as_bytes()),
        read_answers(alloc, ANSWERS.as_bytes()),
    ) else {
        return Err(Fail::from("a request and answers"));
    };
    let different = write_review(
        alloc,
        &Review::Different(Parting {
            old: Decision::Block { code: 403 },
            new: Decision::Captcha,
            request,
            answers,
        }),
    )?;
    let wanted = format!(in alloc;
        "review DIFFERENT\nold BLOCK 403\nnew CAPTCHA\nrequest {REQUEST}\nanswers {ANSWERS}\n"
    )?;
    assert_eq!(rt; different.bytes(), wanted.as_bytes());
    Ok(())
}
