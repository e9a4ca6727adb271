//! The member of a row.

ghost use Rattle.std.specs.Prelude.{◌≡◌, IfSome, option_map};
ghost use Rattle.jsonb_typed.specs.Words.{HasDocument, document_tree, found_at, node_tree};
ghost use Rattle.jsonb_typed.specs.Words.{node_view};

use jsonb::{Document, Node, Reads};
use jsonb_functions::{Step, get_path};

/// The member of a row at the end of a path. `None` if the row has no such member. A path of one
/// key takes less time than `get_path`.
pub fn member_of<'a>(row: Document<'a>, path: &[Step<'_>]) -> Option<Node<'a>>
    ensures value { option_map node_tree result ≡ found_at path.now (document_tree row.entry) }

    // It has a document of its own.
    ensures document { IfSome result
        (λ member. HasDocument (node_view member) (node_tree member)) }
{
    match path {
        // A look-up that counts its reads takes less time than one that does not.
        [Step::Key(name)] => row.get_counted(name, &mut Reads::new()),
        _ => get_path(row, path),
    }
}
