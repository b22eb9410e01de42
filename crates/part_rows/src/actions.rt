//! Rows of effective actions: the rules of a group, and what a reference to it changes.

use group_override::effective;
use std::alloc::Global;
use text_rows::{Kind, unknown};
use waf_model::{Action, Group, GroupUse, Items, Memory, Override, Rule, Statement, Text};

/// Effective actions. Each field is `rule NAME ACTION` (a rule of the group), `override NAME ACTION`, `exclude NAME`, or
/// `count` (the group only counts), each kind in its order; wanted are the actions of the rules. A name has no space.
pub(crate) struct EffectiveActions;

/// What the fields of a row say.
#[derive(Drop)]
struct Told {
    group: Group,
    reference: GroupUse,
}

/// The action that these words name.
fn action_of(words: &[&[u8]]) -> Option<Action> {
    match words {
        [b"ALLOW"] => Some(Action::Allow),
        [b"COUNT"] => Some(Action::Count),
        [b"CAPTCHA"] => Some(Action::Captcha),
        [b"CHALLENGE"] => Some(Action::Challenge),
        [b"BLOCK", code] => Some(Action::Block {
            code: code_of(code)?,
        }),
        _ => None,
    }
}

/// The status code of these three digits.
fn code_of(digits: &[u8]) -> Option<u32> {
    let text = str::from_utf8(digits).ok()?;
    text.parse::<u32>().ok()
}

/// The field of an action.
fn text_of(alloc: Global, action: Action) -> Result<Text, Memory> {
    match action {
        Action::Allow => Text::of(alloc, b"ALLOW"),
        Action::Count => Text::of(alloc, b"COUNT"),
        Action::Captcha => Text::of(alloc, b"CAPTCHA"),
        Action::Challenge => Text::of(alloc, b"CHALLENGE"),
        Action::Block { code } => {
            let mut text = Text::of(alloc, b"BLOCK ")?;
            text.push_number(alloc, u64::from(code))?;
            Ok(text)
        }
    }
}

/// A rule of that name and action; the rest of it doesn't matter here.
fn rule(alloc: Global, name: &[u8], action: Action) -> Result<Rule, Memory> {
    Ok(Rule {
        name: Text::of(alloc, name)?,
        priority: 0,
        place: 0,
        statement: Statement::And(Items::new(alloc)),
        action,
        labels: Items::new(alloc),
        captcha: None,
        challenge: None,
    })
}

/// An empty group, and a reference that changes nothing.
fn nothing(alloc: Global) -> Told {
    Told {
        group: Group {
            arn: Text::new(alloc),
            name: Text::new(alloc),
            namespace: Text::new(alloc),
            capacity: 0,
            rules: Items::new(alloc),
        },
        reference: GroupUse {
            arn: Text::new(alloc),
            overrides: Items::new(alloc),
            excluded: Items::new(alloc),
            count: false,
        },
    }
}

/// Adds what a field says, by its words; answers whether it said something.
fn tell(alloc: Global, told: &mut Told, words: &[&[u8]]) -> Result<bool, Memory> {
    match words {
        [b"count"] => told.reference.count = true,
        [b"exclude", name] => told.reference.excluded.push(Text::of(alloc, name)?)?,
        [b"rule", name, action @ ..] => {
            let Some(action) = action_of(action) else {
                return Ok(false);
            };
            told.group.rules.push(rule(alloc, name, action)?)?;
        }
        [b"override", name, action @ ..] => {
            let Some(action) = action_of(action) else {
                return Ok(false);
            };
            let name = Text::of(alloc, name)?;
            told.reference.overrides.push(Override { name, action })?;
        }
        _ => return Ok(false),
    }
    Ok(true)
}

/// What the fields say, or nothing where one says nothing.
fn told_by(alloc: Global, fields: &[Text]) -> Result<Option<Told>, Memory> {
    let mut all = nothing(alloc);
    for field in fields {
        let words: Vec<&[u8]> = field.bytes().split(|byte| *byte == b' ').collect(alloc)?;
        if !tell(alloc, &mut all, words.as_slice())? {
            return Ok(None);
        }
    }
    Ok(Some(all))
}

impl Kind for EffectiveActions {
    fn answer(&self, alloc: Global, given: &[Text]) -> Result<Vec<Text>, Memory> {
        let Some(told) = told_by(alloc, given)? else {
            return unknown(alloc);
        };
        let actions = effective(alloc, &told.reference, &told.group)?;
        let mut fields = Vec::new(alloc);
        for action in actions.as_slice() {
            fields.push(text_of(alloc, *action)?)?;
        }
        Ok(fields)
    }
}
