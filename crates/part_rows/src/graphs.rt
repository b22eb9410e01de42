//! Rows of decision graphs: formulas over six variables, whose nodes are made in one graph.

use crate::formula::{Symbol, symbols_from_the_last};
use decision_graph::{Graph, NodeId};
use std::alloc::Global;
use text_rows::{Kind, unknown};
use waf_base::{Memory, Meter, Stop, Text};

/// Graphs: formulas, and for each its values under all signs as 0 and 1, and then how many nodes were made for all. Each
/// formula's node is made once more with the operands of each `&` and `|` exchanged: `exchanged` follows where it became
/// another node.
pub(crate) struct Graphs;

/// Graphs of few nodes: behind their greatest number the same, where a formula that would need more comes to `full`.
pub(crate) struct LimitedGraphs;

/// The greatest number of nodes, which no row reaches.
const ENOUGH: u32 = 1_000_000;

/// How the operands of an operation are handed on.
#[derive(Clone, Copy, Debug, PartialEq, Eq)]
enum Order {
    AsWritten,
    Exchanged,
}

/// The graph of a row.
#[derive(Drop)]
struct Made {
    graph: Graph,
    meter: Meter,
    /// Whether a formula became another node with its operands exchanged.
    exchanged: bool,
}

impl Made {
    /// The node of a test whose children are both true, which is what they are.
    fn true_either_way(&mut self) -> Result<NodeId, Stop> {
        let yes = self.graph.yes();
        self.graph.node(0, yes, yes, &mut self.meter)
    }

    /// The node that is true where the variable's sign is.
    fn variable(&mut self, variable: u32) -> Result<NodeId, Stop> {
        let (yes, no) = (self.graph.yes(), self.graph.no());
        self.graph.node(variable, yes, no, &mut self.meter)
    }

    /// The negation. No row hands in a number that is no node's; one would be answered as want of memory.
    fn negation(&mut self, a: NodeId) -> Result<NodeId, Stop> {
        if !self.graph.contains(a) {
            return Err(Stop::Memory);
        }
        self.graph.negate(a, &mut self.meter)
    }

    /// The conjunction or, for `Or`, the disjunction, as the negation.
    fn joined(&mut self, symbol: Symbol, a: NodeId, b: NodeId) -> Result<NodeId, Stop> {
        if !self.graph.contains(a) || !self.graph.contains(b) {
            return Err(Stop::Memory);
        }
        if symbol == Symbol::And {
            self.graph.both(a, b, &mut self.meter)
        } else {
            self.graph.either(a, b, &mut self.meter)
        }
    }

    /// Takes the operands of the symbol from the top of the stack, and puts its node there. Nothing where there are too
    /// few.
    fn apply(
        &mut self,
        symbol: Symbol,
        order: Order,
        stack: &mut Vec<NodeId>,
    ) -> Result<Option<()>, Stop> {
        if let Symbol::Variable(variable) = symbol {
            stack.push(self.variable(variable)?)?;
            return Ok(Some(()));
        }
        if symbol == Symbol::Either {
            stack.push(self.true_either_way()?)?;
            return Ok(Some(()));
        }
        let Some(a) = stack.pop() else {
            return Ok(None);
        };
        if symbol == Symbol::Not {
            stack.push(self.negation(a)?)?;
            return Ok(Some(()));
        }
        let Some(b) = stack.pop() else {
            return Ok(None);
        };
        let (first, second) = match order {
            Order::AsWritten => (a, b),
            Order::Exchanged => (b, a),
        };
        stack.push(self.joined(symbol, first, second)?)?;
        Ok(Some(()))
    }

    /// The node of a formula; nothing where the symbols are none.
    fn node_of(
        &mut self,
        alloc: Global,
        symbols: &[Symbol],
        order: Order,
    ) -> Result<Option<NodeId>, Stop> {
        let mut stack = Vec::new(alloc);
        for symbol in symbols {
            if self.apply(*symbol, order, &mut stack)?.is_none() {
                return Ok(None);
            }
        }
        match stack.as_slice() {
            [only] => Ok(Some(*only)),
            _ => Ok(None),
        }
    }

    /// The node's values under the 64 choices of signs, of which each is a number: bit `n` is the sign of `xn`.
    fn values(&self, alloc: Global, id: NodeId) -> Result<Text, Memory> {
        let mut text = Text::new(alloc);
        if !self.graph.contains(id) {
            return Ok(text);
        }
        for choice in 0..64u32 {
            let signs = [
                choice & 1 == 1,
                (choice >> 1) & 1 == 1,
                (choice >> 2) & 1 == 1,
                (choice >> 3) & 1 == 1,
                (choice >> 4) & 1 == 1,
                (choice >> 5) & 1 == 1,
            ];
            text.push(if self.graph.value(id, &signs) {
                b"1"
            } else {
                b"0"
            })?;
        }
        Ok(text)
    }

    /// The values of a formula; nothing where the symbols are none. Its node is made twice, in both orders.
    fn values_by(&mut self, alloc: Global, symbols: &[Symbol]) -> Result<Option<Text>, Stop> {
        let Some(id) = self.node_of(alloc, symbols, Order::AsWritten)? else {
            return Ok(None);
        };
        let again = self.node_of(alloc, symbols, Order::Exchanged)?;
        if again != Some(id) {
            self.exchanged = true;
        }
        Ok(Some(self.values(alloc, id)?))
    }

    /// The values of a formula; nothing where the bytes are none.
    fn values_of(&mut self, alloc: Global, formula: &[u8]) -> Result<Option<Text>, Stop> {
        match symbols_from_the_last(alloc, formula)? {
            Some(symbols) => self.values_by(alloc, symbols.as_slice()),
            None => Ok(None),
        }
    }

    /// Adds how many nodes were made, and whether a formula became another node.
    fn push_count(&self, alloc: Global, fields: &mut Vec<Text>) -> Result<(), Memory> {
        let mut count = Text::new(alloc);
        count.push_number(alloc, u64::from(self.meter.made))?;
        fields.push(count)?;
        if self.exchanged {
            fields.push(Text::of(alloc, b"exchanged")?)?;
        }
        Ok(())
    }
}

/// The values of a formula, or that it would need too many nodes; nothing where the symbols are none.
fn field_of(alloc: Global, made: &mut Made, formula: &[u8]) -> Result<Option<Text>, Memory> {
    match made.values_of(alloc, formula) {
        Ok(values) => Ok(values),
        Err(Stop::Full) => Ok(Some(Text::of(alloc, b"full")?)),
        Err(Stop::Memory) => Err(Memory),
    }
}

/// The fields for the formulas, or nothing where one is none.
fn fields_of(
    alloc: Global,
    most_nodes: u32,
    formulas: &[Text],
) -> Result<Option<Vec<Text>>, Memory> {
    let mut made = Made {
        graph: Graph::new(alloc),
        meter: Meter::new(most_nodes),
        exchanged: false,
    };
    let mut fields = Vec::new(alloc);
    for formula in formulas {
        match field_of(alloc, &mut made, formula.bytes())? {
            Some(field) => fields.push(field)?,
            None => return Ok(None),
        }
    }
    made.push_count(alloc, &mut fields)?;
    Ok(Some(fields))
}

/// The fields behind the greatest number of nodes, or nothing where that is no number or a formula is none.
fn limited_fields(alloc: Global, given: &[Text]) -> Result<Option<Vec<Text>>, Memory> {
    let [digits, formulas @ ..] = given else {
        return Ok(None);
    };
    let Ok(digits) = std::str::from_utf8(digits.bytes()) else {
        return Ok(None);
    };
    match digits.parse::<u32>() {
        Ok(most_nodes) => fields_of(alloc, most_nodes, formulas),
        Err(_) => Ok(None),
    }
}

/// The fields, or that the row is none of the kind.
fn fields_or_unknown(alloc: Global, fields: Option<Vec<Text>>) -> Result<Vec<Text>, Memory> {
    match fields {
        Some(fields) => Ok(fields),
        None => unknown(alloc),
    }
}

impl Kind for Graphs {
    fn answer(&self, alloc: Global, given: &[Text]) -> Result<Vec<Text>, Memory> {
        fields_or_unknown(alloc, fields_of(alloc, ENOUGH, given)?)
    }
}

impl Kind for LimitedGraphs {
    fn answer(&self, alloc: Global, given: &[Text]) -> Result<Vec<Text>, Memory> {
        fields_or_unknown(alloc, limited_fields(alloc, given)?)
    }
}
