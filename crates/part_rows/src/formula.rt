//! Formulas in prefix form: `x0` to `x5`, `=` for a test of `x0` that is true either way, `!` and a formula, `&` or `|` and two
//! formulas, with nothing between them.

use std::alloc::Global;
use waf_base::Memory;

/// A symbol of a formula.
#[derive(Clone, Copy, Debug, PartialEq, Eq)]
pub(crate) enum Symbol {
    Variable(u32),
    Either,
    Not,
    And,
    Or,
}

/// The symbols of a formula, the last first; nothing where a byte is none. That they are a formula shows when its value
/// is made.
pub(crate) fn symbols_from_the_last(
    alloc: Global,
    formula: &[u8],
) -> Result<Option<Vec<Symbol>>, Memory> {
    let mut symbols = Vec::new(alloc);
    let mut digit = None;
    for byte in formula.iter().rev() {
        let symbol = match (digit.take(), *byte) {
            (Some(variable), b'x') => Symbol::Variable(variable),
            (None, b'0'..=b'5') => {
                digit = Some(u32::from(*byte - b'0'));
                continue;
            }
            (None, b'=') => Symbol::Either,
            (None, b'!') => Symbol::Not,
            (None, b'&') => Symbol::And,
            (None, b'|') => Symbol::Or,
            _ => return Ok(None),
        };
        symbols.push(symbol)?;
    }
    if digit.is_some() {
        return Ok(None);
    }
    Ok(Some(symbols))
}
