// How one pattern was understood.
ghost use Rattle.std.specs.Prelude.{◌≡◌, ◌++◌, ◌<◌, ◌≤◌, length, IfOk, Some, string_bytes};
ghost use Rattle.picture.specs.Outline.{counted, outline_of};
ghost use Rattle.picture.specs.Report.{Reported};
ghost use Rattle.table.specs.Tree.{postfix, tree_of};

use crate::show::Shown;
use crate::tree::Outline;
use crate::wrong::Refused;
use std::alloc::{AllocError, Global};
use std::fmt;
use table::Node;
use text::table_of;

// The pattern's title and text, and below them its nodes, or what is wrong with it.
pub fn report(heap: Global, title: &str, text: &[u8]) -> Result<String, AllocError>
    ensures { IfOk result (λ s. Reported title.now text.now (string_bytes s)) }
{
    let shown = Shown(text);
    match table_of(text) {
        Ok(table) => {
            let understood = Understood {
                nodes: table.nodes(),
            };
            format!(in heap; "{title}: {shown}\n{understood}")
        }
        Err(fault) => {
            let refused = Refused { text, fault };
            format!(in heap; "{title}: {shown}\n{refused}")
        }
    }
}

// How many nodes the pattern has, and their outline.
#[derive(Clone, Copy)]
struct Understood<'a> {
    nodes: &'a [Node],
    ghost whole: { 0 < length nodes.now → postfix (tree_of nodes.now) ≡ nodes.now },
    ghost short: { length nodes.now ≤ 512 },
}

impl fmt::Display for Understood<'_> {
    ghost output = { λ u. Some (counted (length u.nodes.now) ++ outline_of 0 u.nodes.now) };

    fn fmt<W: fmt::Write>(&self, f: &mut fmt::Formatter<W>) -> fmt::Result {
        let nodes = self.nodes;
        let count = nodes.len();
        let noun = if count == 1 { "node" } else { "nodes" };
        let outline = Outline { nodes, depth: 0 };
        write!(f, "{count} {noun}\n{outline}")
    }
}
