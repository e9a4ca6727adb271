//! Names that are given as documents.

ghost use Rattle.std.specs.Prelude.{◌≡◌, IfErr, IfOk, IfSome, map, option_map};
ghost use Rattle.std.specs.Iterator.{YieldsFirstBy};
ghost use Rattle.jsonb.specs.EntryTrees.{rest_trees};
ghost use Rattle.jsonb.specs.Node.{HoldsNoScalar, node_tree};
ghost use Rattle.kohiblad.specs.Names.{name_in, names_in};
ghost use Rattle.kohiblad.specs.Words.{document_tree};

use jsonb::{Document, Error, Items, Node};
use std::alloc::Global;

/// The names that a document gives: the texts of an array, which are the document's bytes. `None`
/// if the document is anything else; `OutOfMemory`, the only error, if an allocation fails.
pub fn read_names<'a>(alloc: Global, document: Document<'a>) -> Result<Option<Vec<&'a str>>, Error>
    ensures ok { IfOk result (λ names. option_map (λ list. map (λ name. name.now) list.items) names
        ≡ names_in (document_tree document.entry)) }
    ensures memory { IfErr result (λ e. e ≡ Error.OutOfMemory) }
{
    let Some(mut items) = document.items() else {
        return Ok(None);
    };
    let mut names = Vec::with_capacity(alloc, items.len())?;
    while let Some(item) = next_item(&mut items) {
        let Some(name) = name_of(item) else {
            return Ok(None);
        };
        names.push(name)?;
    }
    Ok(Some(names))
}

// The next item.
#[inline(always)]
fn next_item<'a>(items: &mut Items<'a>) -> Option<Node<'a>>
    ensures steps { YieldsFirstBy node_tree rest_trees items.old result items.new }
    ensures container { IfSome result HoldsNoScalar }
{
    items.next()
}

// The name that a value is. `None` if it is not a text.
fn name_of<'a>(node: Node<'a>) -> Option<&'a str>
    requires { HoldsNoScalar node }
    ensures { option_map (λ name. name.now) result ≡ name_in (node_tree node.entry) }
{
    match node {
        Node::String(name) => Some(name),
        _ => None,
    }
}
