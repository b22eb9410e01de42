//! The text of the keys of a bundle.

ghost use Rattle.std.specs.Prelude.{◌≡◌, ◌++◌, IfOk, OnOk};
ghost use Rattle.std.specs.List.{flat_map};
ghost use Rattle.waf_model.specs.AnswersText.{kind_name};
ghost use Rattle.wafreview_run.specs.KeysText.{group_line, keys_text, statement_line, token_line};

use crate::decimal::push_decimal;
use answer_book::Keys;
use std::alloc::Global;
use waf_model::{Memory, Text, TokenKey, TokenKind};

/// A line for each key: those of statements, then those of managed rule groups, then the tokens, each in the order of its
/// list. It fails only for want of memory.
pub(crate) fn write_keys(alloc: Global, keys: &Keys) -> Result<Text, Memory>
    ensures { IfOk result (λ text. text ≡ keys_text keys.now.statements keys.now.groups keys.now.tokens) }
{
    let mut text = Text::new(alloc);
    push_statements(&mut text, keys.statements.as_slice())?;
    push_groups(&mut text, keys.groups.as_slice())?;
    push_tokens(alloc, &mut text, keys.tokens.as_slice())?;
    Ok(text)
}

fn push_statements(text: &mut Text, keys: &[Text]) -> Result<(), Memory>
    ensures { OnOk result (text.new ≡ text.old ++ flat_map statement_line keys.now) }
{
    for key in keys {
        text.push(b"statement ")?;
        text.push(key.bytes())?;
        text.push(b"\n")?;
    }
    Ok(())
}

fn push_groups(text: &mut Text, keys: &[Text]) -> Result<(), Memory>
    ensures { OnOk result (text.new ≡ text.old ++ flat_map group_line keys.now) }
{
    for key in keys {
        text.push(b"group ")?;
        text.push(key.bytes())?;
        text.push(b"\n")?;
    }
    Ok(())
}

fn push_tokens(alloc: Global, text: &mut Text, keys: &[TokenKey]) -> Result<(), Memory>
    ensures { OnOk result (text.new ≡ text.old ++ flat_map token_line keys.now) }
{
    for key in keys {
        push_token(alloc, text, *key)?;
    }
    Ok(())
}

fn push_token(alloc: Global, text: &mut Text, key: TokenKey) -> Result<(), Memory>
    ensures { OnOk result (text.new ≡ text.old ++ token_line key) }
{
    text.push(b"token ")?;
    text.push(kind_word(key.kind).as_bytes())?;
    text.push(b" ")?;
    push_decimal(alloc, text, key.immunity)?;
    text.push(b"\n")?;
    Ok(())
}

fn kind_word(kind: TokenKind) -> &'static str
    ensures { result.now ≡ kind_name kind }
{
    match kind {
        TokenKind::Captcha => "CAPTCHA",
        TokenKind::Challenge => "CHALLENGE",
    }
}
